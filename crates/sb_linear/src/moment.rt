//! When a size in an annotation is read.

/// The moment of the clause that a size stands in.
#[derive(Clone, Copy)]
pub enum Moment {
    /// An entry clause.
    AtEntry,
    /// An exit clause: `*p` and fields have the values of then.
    AtExit,
    /// An exit clause on a region of the entry: `*p` and fields have the values at entry.
    TakenAtEntry,
}
