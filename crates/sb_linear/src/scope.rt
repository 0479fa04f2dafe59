//! What the names in annotations stand for.

use sb_base::Name;
use sb_core::{Kind, Member, Param, TypeId};

/// The members of the struct that a parameter points to.
#[derive(Clone, Copy)]
pub struct Inside<'a> {
    pub param: u32,
    pub members: &'a [Member],
}

/// A function as one of its declarations has it: the table of types, the names and the types of its parameters, and the
/// type of its result. `inside` is there for the annotations of a member, whose names are those of members.
#[derive(Clone, Copy)]
pub struct Scope<'a> {
    pub types: &'a [Kind],
    pub names: &'a [Option<Name>],
    pub params: &'a [Param],
    pub result: TypeId,
    pub inside: Option<Inside<'a>>,
}
