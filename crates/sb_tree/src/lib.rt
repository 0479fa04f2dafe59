//! The syntax tree of a translation unit (C99 6.5 to 6.9, with SAL annotations). Each node has its place.
#![tactic(auto)]

mod cursor;
mod declarations;
mod depth;
mod expressions;
mod operator;
mod statements;
mod syntax;
mod tree;
mod type_names;

pub use cursor::Cursor;
pub use operator::{BinaryOp, UnaryOp};
pub use syntax::{Arg, Decl, Expr, Init, Item, Note, Stmt, Storage, TypeName};
pub use tree::Tree;
