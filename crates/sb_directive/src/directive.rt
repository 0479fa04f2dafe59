//! The directives of C99 6.10.

/// What the line of a directive asks for, by the word behind its `#`.
#[derive(Clone, Copy, PartialEq, Eq)]
pub enum Directive {
    /// Nothing stands behind the `#` (6.10.7).
    Null,
    If,
    Ifdef,
    Ifndef,
    Elif,
    Else,
    Endif,
    Include,
    Define,
    Undef,
    Line,
    Error,
    Pragma,
    /// Something else stands there.
    Unknown,
}

/// An `#if`, `#ifdef` or `#ifndef` whose `#endif` has not come yet (6.10.1).
#[derive(Clone, Copy, PartialEq, Eq)]
pub struct Branch {
    /// The text around it is read.
    pub around: bool,
    /// The group that stands now is read.
    pub reads: bool,
    /// One of its groups was read, or is.
    pub taken: bool,
    /// Its `#else` has come.
    pub after_else: bool,
}
