// Serving and asking of a position of a file.
#![tactic(auto)]

pub mod calls;
