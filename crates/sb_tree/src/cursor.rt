//! Where a reader of the grammar stands.

use sb_base::Token;

/// A place in a list of tokens: the index of the next token, and how much deeper the syntax may go.
#[derive(Clone, Copy)]
pub struct Cursor<'a> {
    pub tokens: &'a [Token],
    pub next: usize,
    pub left: u32,
}
