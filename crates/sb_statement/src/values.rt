//! What the readers of statements give.

use sb_scope::Typedefs;
use sb_tree::Stmt;

/// The statements of a block so far, and the typedef names in force behind them.
#[derive(Drop)]
pub struct Body {
    pub list: Vec<Stmt>,
    pub types: Typedefs,
}

/// The first part of a `for`, if there is one, and the typedef names in force behind it (C99 6.8.5.3).
#[derive(Drop)]
pub struct First {
    pub statement: Option<Box<Stmt>>,
    pub types: Typedefs,
}

/// Declarations as a statement, and the typedef names in force behind them.
#[derive(Drop)]
pub(crate) struct DeclaredStatement {
    pub(crate) statement: Stmt,
    pub(crate) types: Typedefs,
}
