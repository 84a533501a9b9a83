// The heading of a partial file: refusals 1 to 11, and what the layers above need of the file's boxes.
#![tactic(auto)]

pub mod answers;
pub mod find;
mod ftyp;
mod pfil;
pub mod stages;
