ghost use Rattle.std.specs.Prelude.{◌≡◌, IfOk};

use crate::term::Term;
use std::alloc::{AllocError, Global};

/// The condition that the term is at least 0.
#[derive(Drop)]
pub struct Row {
    pub term: Term,
}

impl Row {
    /// An equal row.
    pub fn copy(&self, alloc: Global) -> Result<Row, AllocError>
        ensures { IfOk result (λ r. r ≡ self.now) }
    {
        Ok(Row {
            term: self.term.copy(alloc)?,
        })
    }
}
