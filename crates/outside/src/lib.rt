// The chunks that append stores outside `pdat`: whether they are whole allowed boxes, and how many.
#![tactic(auto)]

pub mod chunks;
pub mod items;
pub mod whole;
