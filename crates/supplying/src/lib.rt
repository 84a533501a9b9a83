// Supplying: the chunks of a table's rows, which of them supplies a position, and for how many positions in a row.
#![tactic(auto)]

pub mod rows;
pub mod runs;
