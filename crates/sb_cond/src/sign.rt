//! The tokens that the condition of `#if` is made of, once names are replaced.

use crate::arithmetic::Operator;

/// What a token of a condition is.
#[derive(Clone, Copy, PartialEq, Eq)]
pub enum Sign {
    /// A number, a character constant, or a name that is left, which is 0.
    Number { bits: u64, unsigned: bool },
    /// An operator between operands; `+` and `-` stand before an operand too.
    Binary(Operator),
    Complement,
    Not,
    Open,
    Close,
    Question,
    Colon,
    Comma,
    /// What no condition has.
    Other,
}

/// A token and its position in the line, from 0.
#[derive(Clone, Copy, PartialEq, Eq)]
pub struct ConditionToken {
    pub sign: Sign,
    pub at: u32,
}

/// A sign that has to stand at some place of an expression.
#[derive(Clone, Copy, PartialEq, Eq)]
pub enum Mark {
    Open,
    Close,
    Question,
    Colon,
}
