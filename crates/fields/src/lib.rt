// The fields of a `pshd`, the head of a `ploc` and its entries, and the boxes that may be a chunk.
#![tactic(auto)]

pub mod allowed;
pub mod entry;
pub mod fields;
pub mod location;
pub mod state;
