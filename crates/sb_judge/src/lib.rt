//! The rules that judge a function: the pictures at its entry, its conditions and statements, and the report of each
//! function.
#![tactic(auto)]

mod entry;
mod judging;
mod splits;
mod walks;

pub use judging::reports_of;
