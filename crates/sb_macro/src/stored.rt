//! A macro as it is kept.
ghost use Rattle.std.specs.Prelude.{◌≡◌, ◌↔◌, IsTrue, position};
ghost use Rattle.sb_macro.specs.Macros.{Macro, macro_of, params_of, same_name, holds, param_of};

use sb_base::{Name, PpKind};

/// A piece of a replacement list (C99 6.10.3): a piece without its place.
///
/// `spaced` says that white space stands before it. It is false for the first piece of a list, since the white space
/// around a replacement list is no part of it.
#[derive(Clone, Copy, PartialEq, Eq)]
pub struct Part {
    pub kind: PpKind,
    pub text: Name,
    pub spaced: bool,
}

/// A macro: its name, the parameters of a function-like one, and its replacement list.
#[derive(Drop)]
pub struct Stored {
    pub name: Name,
    pub params: Option<Vec<Name>>,
    pub body: Vec<Part>,
}

/// Whether a name is one of these.
pub fn holds(names: &[Name], name: Name) -> bool
    ensures { result ≡ holds names.now name }
{
    names.iter().any(|other| other.0 == name.0)
}

/// Where a name stands among these.
fn place_of(names: &[Name], name: Name) -> Option<usize>
    ensures { result ≡ position (λ other. same_name other name) names.now }
{
    names.iter().position(|other| other.0 == name.0)
}

/// Whether two macros have the same parameters, in the same order.
fn same_params(params: &Option<Vec<Name>>, others: &Option<Vec<Name>>) -> bool
    ensures { IsTrue result ↔ (params_of params.now ≡ params_of others.now) }
{
    match (params, others) {
        (Some(params), Some(others)) => params.as_slice() == others.as_slice(),
        (None, None) => true,
        (Some(_), None) => false,
        (None, Some(_)) => false,
    }
}

impl Stored {
    /// The number of the parameter that has this name.
    pub fn param(&self, name: Name) -> Option<usize>
        ensures { result ≡ param_of (macro_of self.now).params name }
    {
        match &self.params {
            Some(params) => place_of(params, name),
            None => None,
        }
    }

    /// Whether two macros are identical (C99 6.10.3 paragraph 2).
    pub fn is_same(&self, other: &Stored) -> bool
        ensures { IsTrue result ↔ (macro_of self.now ≡ macro_of other.now) }
    {
        if self.name != other.name {
            return false;
        }
        if !same_params(&self.params, &other.params) {
            return false;
        }
        self.body.as_slice() == other.body.as_slice()
    }
}
