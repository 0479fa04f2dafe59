//! Pictures of the states that a function can be in: their terms and facts, how a condition is asked for and assumed,
//! what is written of a region, and how symbols that nothing needs are eliminated.
#![tactic(auto)]

mod asking;
mod copied;
mod facts;
mod picture;
mod regions;
mod symbols;
pub mod terms;
mod tidied;
mod tidying;

pub use asking::{Asked, ask, assume};
pub use copied::Copied;
pub use facts::{add_at_least, add_at_least_zero, add_fact, number_at};
pub use picture::{Cell, Island, Label, Part, Picture, Region, Value};
pub use regions::{add_island, greater_end, with_prefix};
pub use tidying::all_tidied;
