//! The tree of a file.
ghost use Rattle.std.specs.Prelude.{◌≡◌};

use sb_base::{Name, Place};

/// What a parameter is: a number, or a pointer to as many `int`s as the number parameter at position `size` says.
#[derive(Clone, Copy, PartialEq, Eq)]
pub enum ParamKind {
    Int,
    Unsigned,
    OutWrites { size: u32 },
}

#[derive(Clone, Copy, PartialEq, Eq)]
pub struct Param {
    pub name: Name,
    pub kind: ParamKind,
}

/// A number of the text, or the number parameter at a position.
#[derive(Clone, Copy, PartialEq, Eq)]
pub enum Simple {
    Number(u32),
    Param(u32),
}

#[derive(Clone, Copy, PartialEq, Eq)]
pub enum Comparison {
    Less,
    AtMost,
    Greater,
    AtLeast,
    Equal,
    NotEqual,
}

impl Comparison {
    ghost use Rattle.sb_function.specs.Comparisons.{opposite};

    /// The comparison that holds exactly where this one does not.
    pub fn opposite(self) -> Comparison
        ensures { result ≡ opposite self }
    {
        match self {
            Comparison::Less => Comparison::AtLeast,
            Comparison::AtMost => Comparison::Greater,
            Comparison::Greater => Comparison::AtMost,
            Comparison::AtLeast => Comparison::Less,
            Comparison::Equal => Comparison::NotEqual,
            Comparison::NotEqual => Comparison::Equal,
        }
    }
}

/// A statement (C99 6.8). The place of a store is that of its `[`.
#[derive(Drop)]
pub enum Statement {
    Block(Vec<Statement>),
    Store {
        array: u32,
        index: Simple,
        value: Simple,
        place: Place,
    },
    If {
        left: Simple,
        op: Comparison,
        right: Simple,
        then: Box<Statement>,
    },
}

/// A function with its body (C99 6.9.1). Its place is that of its name.
#[derive(Drop)]
pub struct Function {
    pub name: Name,
    pub place: Place,
    pub params: Vec<Param>,
    pub body: Vec<Statement>,
}
