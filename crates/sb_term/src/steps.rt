ghost use Rattle.std.specs.Prelude.{◌≡◌, IfOk};

use crate::rat::Rat;
use crate::sym::Sym;
use sqlite_items::Items;
use std::alloc::{AllocError, Global};

/// `a` times row `i` plus `b` times row `j`. Rows are numbered from 0: the facts, the negated goal, then each step.
#[derive(Clone, Copy, PartialEq, Eq)]
pub struct Step {
    pub a: u64,
    pub i: u64,
    pub b: u64,
    pub j: u64,
}

/// The steps of a proof, in the order in which they are formed.
#[derive(Drop)]
pub struct Steps {
    pub list: Items<Step>,
}

impl Steps {
    /// Equal steps.
    pub fn copy(&self, alloc: Global) -> Result<Steps, AllocError>
        ensures { IfOk result (λ s. s ≡ self.now) }
    {
        Ok(Steps {
            list: Items::from_slice(alloc, self.list.as_slice())?,
        })
    }
}

/// A value for each symbol of a query, in rising number.
#[derive(Drop)]
pub struct Assignment {
    pub list: Items<(Sym, Rat)>,
}

impl Assignment {
    /// An equal assignment.
    pub fn copy(&self, alloc: Global) -> Result<Assignment, AllocError>
        ensures { IfOk result (λ a. a ≡ self.now) }
    {
        Ok(Assignment {
            list: Items::from_slice(alloc, self.list.as_slice())?,
        })
    }
}
