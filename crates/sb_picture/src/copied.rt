//! Copies, which take memory.
ghost use Rattle.std.specs.Prelude.{◌≡◌, IfOk};

use sb_term::{Row, Term};
use sqlite_items::Items;
use std::alloc::{AllocError, Global};

/// What can be copied where memory allows.
pub trait Copied {
    fn copied(&self, alloc: Global) -> Result<Self, AllocError>
        ensures { IfOk result (λ copy. copy ≡ self.now) };
}

impl Copied for Row {
    fn copied(&self, alloc: Global) -> Result<Row, AllocError> {
        self.copy(alloc)
    }
}

impl Copied for Option<Term> {
    fn copied(&self, alloc: Global) -> Result<Option<Term>, AllocError> {
        match self {
            Some(term) => {
                let copy = term.copy(alloc)?;
                Ok(Some(copy))
            }
            None => Ok(None),
        }
    }
}

pub fn copies<T: Copied + Drop>(alloc: Global, items: &[T]) -> Result<Items<T>, AllocError>
    ensures { IfOk result (λ copies. copies ≡ items.now) }
{
    let mut copies = Items::new(alloc);
    for item in items {
        let copy = item.copied(alloc)?;
        copies.push(copy)?;
    }
    Ok(copies)
}
