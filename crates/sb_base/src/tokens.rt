//! What the readers of C are handed: the kinds of pieces, and the tokens of a unit.
use crate::interning::Name;
use crate::refusals::Place;

/// What a preprocessing piece is (C99 6.4).
#[derive(Clone, Copy, PartialEq, Eq)]
pub enum PpKind {
    /// An identifier or a keyword (6.4.1, 6.4.2).
    Word,
    /// A preprocessing number (6.4.8).
    Number,
    /// A character constant (6.4.4.4).
    Char,
    /// A string literal (6.4.5).
    Text,
    /// A header name, with its delimiters (6.4.7).
    Header,
    /// A punctuator (6.4.6), or a backslash that belongs to nothing else.
    Punct,
}

/// A token of a unit, once its directives are carried out and its macros replaced.
///
/// `value` is that of a number or of a character, a negative one plus 2^64, and 0 for every other kind.
#[derive(Clone, Copy, PartialEq, Eq)]
pub struct Token {
    pub kind: PpKind,
    pub text: Name,
    pub place: Place,
    pub value: u64,
}
