// Partial files: the types of the answers, the brand, positions, the flags of a segment, limits and the lengths of
// rows. The definitions of reading and their laws stand beside them in specs/ and proofs/, and the
// calls in the layers above.
#![tactic(auto)]

pub mod answers;
pub mod brand;
pub mod flags;
pub mod limits;
pub mod position;
pub mod rows;
