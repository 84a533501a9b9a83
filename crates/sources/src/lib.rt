// Which segments are one source: the numbers of their sources, and where the list of URLs of each source stands.
#![tactic(auto)]

pub mod find;
pub mod join;
pub mod lists;
pub mod numbers;
