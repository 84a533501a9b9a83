// Spans: the stretches of the source that chunks of one state cover, in order.
#![tactic(auto)]

pub mod chunks;
pub mod files;
pub mod kept;
pub mod ordering;
mod put;
pub mod span;
