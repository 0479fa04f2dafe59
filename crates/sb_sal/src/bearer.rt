//! What annotations stand on.

/// The kind of declaration that annotations stand before.
#[derive(Clone, Copy)]
pub enum Bearer {
    Parameter,
    /// A member of a structure.
    Member,
    Function,
    /// Another object, or a type.
    Object,
    /// It is not known yet.
    Any,
}
