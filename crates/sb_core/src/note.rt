//! Annotations of declarations, as far as they are judged after elaboration.

use crate::operator::{SizeBinary, SizeUnary};
use sb_base::{Name, Place};

/// An annotation: the position of its spelling, and its arguments.
#[derive(Drop)]
#[cycle(notes)]
pub struct CoreNote {
    pub name: u16,
    pub args: Vec<CoreArg>,
    pub place: Place,
}

#[derive(Drop)]
#[cycle(notes)]
pub enum CoreArg {
    Size(CoreSize),
    Note(Box<CoreNote>),
}

/// The tree of an argument; `place` is that of a node's first token. `sizeof` and enum constants are numbers.
#[derive(Drop)]
#[cycle(sizes)]
pub enum CoreSize {
    Number(i128, Place),
    /// `(void *)0`.
    Null(Place),
    Name(Name, Place),
    /// `*name`.
    Target {
        name: Name,
        name_place: Place,
        place: Place,
    },
    /// `name->field`.
    Field {
        name: Name,
        name_place: Place,
        field: Name,
        field_place: Place,
        place: Place,
    },
    /// `return`.
    Result(Place),
    /// `_Old_(of)`.
    Old {
        of: Box<CoreSize>,
        place: Place,
    },
    Unary {
        op: SizeUnary,
        of: Box<CoreSize>,
        place: Place,
    },
    Binary {
        op: SizeBinary,
        left: Box<CoreSize>,
        right: Box<CoreSize>,
        place: Place,
    },
    /// All else.
    Other(Place),
}

/// A declaration of a function: its parameters' names, its annotations, and those of each parameter.
#[derive(Drop)]
pub struct Declared {
    pub place: Place,
    pub names: Vec<Option<Name>>,
    pub notes: Vec<CoreNote>,
    pub params: Vec<Vec<CoreNote>>,
}
