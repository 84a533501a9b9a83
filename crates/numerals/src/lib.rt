// The numbers of a file as they stand in its bytes, of any width, signed and unsigned; and two held against each other.
#![tactic(auto)]

pub mod numbers;
pub mod order;
pub mod place;
