// Writing: a file is begun in a lent buffer, and segments are appended to it.
#![tactic(auto)]

pub mod append;
pub mod begin;
