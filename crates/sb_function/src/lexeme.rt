//! The words and marks of a unit, each with its place.

use sb_base::{Name, Place};

/// A word or mark, as the grammar reads it.
#[derive(Clone, Copy, PartialEq, Eq)]
pub enum Lexeme {
    Void,
    Int,
    Unsigned,
    If,
    OutWrites,
    /// Any other word, by its number in the table of names.
    Named(Name),
    /// A decimal constant, below 2^31.
    Number(u32),
    OpenParenthesis,
    CloseParenthesis,
    OpenBrace,
    CloseBrace,
    OpenBracket,
    CloseBracket,
    Comma,
    Semicolon,
    Assign,
    Star,
    Less,
    AtMost,
    Greater,
    AtLeast,
    Equal,
    NotEqual,
    /// Anything else: no text of the grammar has it.
    Other,
}

/// A word or mark where it stands.
#[derive(Clone, Copy, PartialEq, Eq)]
pub struct Piece {
    pub lexeme: Lexeme,
    pub place: Place,
}
