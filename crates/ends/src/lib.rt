// What the ends of segments say of the size of the source.
#![tactic(auto)]

pub mod sizes;
pub mod table;
