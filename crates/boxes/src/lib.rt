// The box layer: box headers, the walk over one container, and the table of the eight kinds.
#![tactic(auto)]

pub mod body;
pub mod framing;
pub mod kinds;
pub mod limits;
pub mod walk;
