// The map: which positions a file has, and which are missing, by name or not, as text in a lent buffer.
#![tactic(auto)]

pub mod call;
mod damage;
mod each;
mod film;
mod lines;
mod outline;
mod ranges;
mod totals;
