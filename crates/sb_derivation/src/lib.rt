//! What declarators make of types, members and parameters put together, and what of their readers needs no declarator
//! (C99 6.7.2.1, 6.7.5).
#![tactic(auto)]

mod arrays;
mod building;
mod declarator;
mod members;
mod parameters;
mod untyped;
mod void;

pub use arrays::{FoundPiece, array_piece};
pub use building::simple_decl;
pub use declarator::{
    Declarator, is_bare, is_function, is_inner_next, is_outermost, is_parameter_next,
    is_suffix_next, name_or_none,
};
pub use members::{
    DeclList, Declarations, FoundDecl, Heading, member_notes, notes_again, with_decl,
};
pub use parameters::{beyond_limit, first_place, parameter_notes, without_name};
pub use untyped::Untyped;
pub use void::{is_close_second, is_old_next, only_void, void_parameters};
