//! A preprocessing piece and where it stands.
use sb_base::{Name, Place, PpKind};

/// A preprocessing piece (C99 6.4): what it is, its spelling as a number in the table of names, and its place.
///
/// `first` says that it is the first of its line, `spaced` that white space or a comment stands before it.
#[derive(Clone, Copy, PartialEq, Eq)]
pub struct PpToken {
    pub kind: PpKind,
    pub text: Name,
    pub place: Place,
    pub first: bool,
    pub spaced: bool,
}
