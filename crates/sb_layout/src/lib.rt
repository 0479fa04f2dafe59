//! The layout of a table of types (C99 6.2.6.1, 6.5.3.4, 6.7.2.1).
#![tactic(auto)]

mod bases;
mod faults;
mod order;
mod spots;
mod structs;
mod table;

pub use bases::base_of;
pub use faults::Fault;
pub use table::layout;
