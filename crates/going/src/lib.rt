// Going: the source that an addition goes to, told by its texts and the lists of URLs of the file.
#![tactic(auto)]

pub mod source;
pub mod texts;
