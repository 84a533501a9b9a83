// Salvage after a pulled plug: what becomes of each box of a spoiled file, the copy of those that stay, and the lines of
// those that are dropped.
#![tactic(auto)]

pub mod calls;
mod copy;
mod fates;
mod inner;
mod lines;
mod opening;
mod places;
mod ploc;
