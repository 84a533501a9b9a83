// The rows of a file's index, with what is served of each box.
#![tactic(auto)]

pub mod calls;
mod marking;
mod serving;
