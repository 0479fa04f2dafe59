//! What statements are, and readers of those in which no other statement stands: expressions, declarations and jumps (C99 6.8).
#![tactic(auto)]

mod declarations;
mod expressions;
mod first;
mod jumps;
mod lexemes;
mod room;
mod values;

pub use declarations::{declaration_item, named_declaration};
pub use expressions::{
    constant, empty, evaluated, in_parentheses, optional, semicolon, unlabelled,
};
pub use first::first_within;
pub use jumps::{broken, continued, gone, returned};
pub use lexemes::{
    is_case_next, is_declaration_next, is_item_next, is_label_next, is_name_next,
    is_named_declaration_next, reading,
};
pub use room::{no_block, no_item, no_statement};
pub use values::{Body, First};
