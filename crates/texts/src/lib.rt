// Text put into a lent buffer, one piece behind the other.
#![tactic(auto)]

pub mod lines;
pub mod puts;
