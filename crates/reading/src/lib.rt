// Reading a file: any bytes get their tables or one numbered refusal.
#![tactic(auto)]

pub mod indexed;
pub mod judging;
pub mod parts;
pub mod tables;
pub mod texts;
