//! The table of types of a set while it is elaborated (C99 6.2.5, 6.7.5).
#![tactic(auto)]

mod arrays;
mod composite;
mod fault;
mod meaning;
mod table;

pub use fault::TableFault;
pub use meaning::{beginning, composites};
pub use table::TypeTable;
