//! Linear terms over integer symbols, rationals with limits, the queries that a decider is asked, and what its answers mean.
#![tactic(auto)]

mod answer;
mod aside;
mod decide;
mod divisor;
mod entry;
mod fault;
mod limits;
mod merge;
mod numbered;
mod query;
mod rat;
mod row;
mod steps;
mod sym;
mod term;

pub use answer::Answer;
pub use aside::Aside;
pub use decide::Decide;
pub use divisor::{cancelled, common_divisor};
pub use entry::Entry;
pub use fault::{DecideFault, TermFault};
pub use numbered::Numbered;
pub use query::Query;
pub use rat::Rat;
pub use row::Row;
pub use steps::{Assignment, Step, Steps};
pub use sym::Sym;
pub use term::Term;
