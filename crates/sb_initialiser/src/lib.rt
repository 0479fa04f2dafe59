//! Readers of initialisers (C99 6.7.8).
#![tactic(auto)]

mod initialisers;

pub use initialisers::{Initial, initialiser};
