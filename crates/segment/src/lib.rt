// The segment layer: the chunks that the entries of a `ploc` tell of, each with its place in the file.
#![tactic(auto)]

pub mod chunk;
pub mod data;
mod placed;
pub mod tops;
pub mod whole;
