// One pass over the segments of a file: each is judged beside those before it, its rows are put into the lent tables,
// and what all of them say is gathered. Salvage's pass leaves out those that refuse.
#![tactic(auto)]

mod basis;
mod chunks;
pub mod gathered;
pub mod keeping;
pub mod kept;
pub mod numbers;
mod parts;
pub mod pass;
pub mod rows;
mod step;
pub mod tables;
