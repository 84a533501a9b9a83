// The texts of the `surl` boxes of a segment, in lent memory as append takes them.
#![tactic(auto)]

pub mod answers;
pub mod calls;
mod find;
mod putting;
