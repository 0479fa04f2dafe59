//! The typedef names in force (C99 6.2.1, 6.7.7).
#![tactic(auto)]

mod typedefs;

pub use typedefs::{Scope, Typedefs};
