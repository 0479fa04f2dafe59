//! Readers of expressions and type names (C99 6.5, 6.7.6).
#![tactic(auto)]

mod declarators;
mod expressions;
mod postfix;
mod prefix;
mod type_names;

pub use declarators::{Size, sized};
pub use expressions::{Level, no_room, within};
pub use type_names::{NamedType, type_within};
