//! Sums of multiples of the values that annotations speak of: their order, sums, differences and multiples, as far as
//! their numbers have 128 bits.
#![tactic(auto)]

mod lines;
mod meaning;
mod merge;
mod parts;

pub use lines::{combined, scaled};
pub use meaning::laws;
