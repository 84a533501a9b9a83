// What the programs share: standard input, and for those that run the calls marks in what is lent, sums, the parts of a
// line, and those of a record.
#![tactic(auto)]

pub mod input;
pub mod lines;
pub mod marks;
pub mod records;
pub mod sums;
