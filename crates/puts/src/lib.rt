// Puts: what is written goes into a lent buffer piece by piece, numbers and bytes, and box by box. Each put hands on
// the place behind what it put; none asks anything.
#![tactic(auto)]

pub mod ftyp;
pub mod pdat;
pub mod pfil;
pub mod pieces;
pub mod ploc;
pub mod pseg;
mod pshd;
pub mod surl;
