//! Where a declaration stands.

/// Where a declaration stands (C99 6.7, 6.7.2.1, 6.7.5.3, 6.9).
#[derive(Clone, Copy)]
pub enum Seat {
    /// In a translation unit, in a block or in a `for`.
    Scope,
    /// In a structure.
    Structure,
    /// In the parentheses of a function.
    Prototype,
}
