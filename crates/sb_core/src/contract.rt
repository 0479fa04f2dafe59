//! What the annotations of a function ask at entry and promise at exit.

use crate::operator::CompareOp;
use sb_base::Place;

/// The clauses of a function, and the guards that they name by position.
#[derive(Drop)]
pub struct Contract {
    pub entry: Vec<Clause>,
    pub exit: Vec<Clause>,
    pub guards: Vec<Guard>,
}

/// A clause at a location; it speaks where it has no guard or its guard is true.
#[derive(Drop)]
pub struct Clause {
    pub kind: ClauseKind,
    pub at: Location,
    pub guard: Option<u32>,
    pub place: Place,
}

#[derive(Drop)]
pub enum ClauseKind {
    /// The pointer is not null.
    Present,
    /// From the pointer on the object has so many bytes.
    Extent(Size),
    /// The first so many bytes are written.
    Written(Size),
    /// A zero element stands in the extent, in the first so many elements where a size is given.
    Terminated(Option<Size>),
    /// Each of the comparisons holds.
    Condition(Vec<Compare>),
    /// Stores are permitted.
    Permit,
    /// The pointer leads to a new object.
    New,
}

/// What a clause speaks of: a parameter, what it points to, a member of the struct that it points to, or the result.
#[derive(Clone, Copy)]
pub enum Location {
    Param(u32),
    Target(u32),
    Field(u32, u32),
    Result,
}

/// A sum of multiples and a constant.
#[derive(Drop)]
pub struct Size {
    pub parts: Vec<(i128, Atom)>,
    pub constant: i128,
}

/// The value of a location, at entry where `old`.
#[derive(Clone, Copy)]
pub struct Atom {
    pub at: Location,
    pub old: bool,
}

#[derive(Drop)]
pub enum Compare {
    Order {
        op: CompareOp,
        left: Size,
        right: Size,
    },
    /// Whether a pointer parameter is not null, or null.
    Present {
        param: u32,
        holds: bool,
    },
}

/// It is true where each part's conjunction has the truth value beside it; the parts are read from the first on.
#[derive(Drop)]
pub struct Guard {
    pub parts: Vec<(Vec<Compare>, bool)>,
}
