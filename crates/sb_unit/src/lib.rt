//! Readers of functions and of translation units (C99 6.9).
#![tactic(auto)]

mod external;

pub use external::unit;
