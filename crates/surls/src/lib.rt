// The `surl` boxes of a container: their form, their texts, and whether two containers have the same URLs.
#![tactic(auto)]

pub mod first;
pub mod formed;
mod next;
pub mod part;
pub mod texts;
pub mod urls;
