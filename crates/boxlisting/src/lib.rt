// The list of a file's top-level boxes, as text in a lent buffer.
#![tactic(auto)]

mod bytes;
pub mod call;
mod lines;
