// The index of a file: that in `pfil` and those in its segments, in one pass over the file's boxes.
#![tactic(auto)]

pub mod file;
mod parts;
