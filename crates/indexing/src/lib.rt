// The box index: index lists and the indexed boxes in them, which may hold lists.
#![tactic(auto)]

mod fields;
mod head;
pub mod index;
mod inner;
mod lists;
pub mod marks;
mod spot;
