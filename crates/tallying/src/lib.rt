// How many boxes of each kind a container holds, held against the table, and the first of a kind.
#![tactic(auto)]

pub mod counting;
pub mod find;
pub mod rules;
pub mod tally;
