// Adding: what append is asked to add, counted, laid out, and held against the file that it is added to.
#![tactic(auto)]

pub mod addition;
pub mod admission;
pub mod counts;
pub mod layout;
#[cfg(test)]
mod tests;
pub mod texts;
