// Numbers put into lent memory, from one on and one behind the other.
#![tactic(auto)]

pub mod rows;
