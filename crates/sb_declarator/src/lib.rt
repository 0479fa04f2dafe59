//! Readers of declarators, and of the specifiers, members and parameters that stand inside them (C99 6.7.2.1, 6.7.5).
#![tactic(auto)]

mod declarators;
mod members;
mod parameters;
mod specifier_list;

pub use declarators::declarator_within;
pub use specifier_list::specifiers;
