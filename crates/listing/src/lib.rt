// Listing: the maximal ranges of positions that the file has, and of those that are missing.
#![tactic(auto)]

pub mod calls;
pub mod lists;
