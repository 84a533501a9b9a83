// The library for programs in C: the calls of the product on numbers and slices. Each answers 0 or the number of its
// refusal, and leaves its values in a lent array of numbers.
#![tactic(auto)]

mod answers;
pub mod reading_calls;
pub mod writing_calls;
