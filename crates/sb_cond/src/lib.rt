//! Whether the condition of an `#if` holds (C99 6.10.1, 6.6): the grammar of constant expressions and their arithmetic.
#![tactic(auto)]

mod arithmetic;
mod expression;
mod front;
mod line;
mod reading;
mod sign;

pub use front::front_refusal;
pub use line::condition;
