//! The decider that eliminates symbols over a plain list of rows.
#![tactic(auto)]

mod answer;
mod choose;
mod factors;
mod outcome;
mod place;
mod plain;
mod prune;
mod split;
mod start;
mod state;
mod symbols;
mod terms;
mod values;

pub use plain::Plain;
