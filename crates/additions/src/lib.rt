// What begin and append write: the segment header. The definitions of writing and their laws stand beside it in specs/
// and proofs/, with the three demands whole, and the calls in the layers above.
#![tactic(auto)]

pub mod header;
