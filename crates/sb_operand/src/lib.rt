//! What expressions and type names are made of and read without an expression inside: operands and the nodes over
//! them (C99 6.5), the types that specifiers name and the pieces of declarators (6.7.2, 6.7.6).
#![tactic(auto)]

mod base_types;
mod declarators;
mod found;
mod operands;
mod pieces;
mod trees;

pub use base_types::{Based, base_type};
pub use declarators::{
    Pieces, is_abstract_next, is_call_next, is_parameter_next, no_declarator, pointing, points,
    qualifiers, room_behind,
};
pub use found::Found;
pub use operands::{begins_expr, is_expr_next, take_operand};
pub use pieces::{Piece, typed};
pub use trees::{
    assign, binary, call, cast, cond, index, member, paren, size_of_expr, size_of_type, unary,
};
