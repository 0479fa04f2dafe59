//! Readers of declarations in a scope (C99 6.7).
#![tactic(auto)]

mod building;
mod declarations;
mod definitions;
mod openings;
mod sharing;
mod tails;

pub use declarations::{Declared, declaration, first_declarator, nameless, rest_of_declaration};
pub use definitions::{definition, names_inside};
pub use openings::{Opening, is_nameless_next, opening_within};
pub use sharing::Counted;
