//! Parameters as they are written, before the sizes are known by their positions.

use sb_base::Name;

#[derive(Clone, Copy)]
pub(crate) enum WrittenKind {
    Int,
    Unsigned,
    /// A pointer, whose size the parameter of this name gives.
    OutWrites(Name),
}

#[derive(Clone, Copy)]
pub(crate) struct Written {
    pub(crate) name: Name,
    pub(crate) kind: WrittenKind,
}
