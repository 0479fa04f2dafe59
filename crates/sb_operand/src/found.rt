//! An expression that was read.

use sb_base::Token;
use sb_tree::Expr;

/// An expression, how deep its tree is, and the tokens after it.
#[derive(Drop)]
pub struct Found<'a> {
    pub tree: Box<Expr>,
    pub depth: u32,
    pub rest: &'a [Token],
}
