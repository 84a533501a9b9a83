// Sweeps over ordered spans: the maximal ranges of one class, or of one name, that they find.
#![tactic(auto)]

pub mod naming;
pub mod ranges;
pub mod sweep;
