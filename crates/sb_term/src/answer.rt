ghost use Rattle.std.specs.Prelude.{◌≡◌, IfOk};

use crate::steps::{Assignment, Steps};
use std::alloc::{AllocError, Global};

/// What is found of a query.
#[derive(Drop)]
pub enum Answer {
    /// It follows, by these steps.
    Proved(Steps),
    /// It does not follow over rationals: all facts hold at these values and the goal does not.
    Refuted(Assignment),
    /// More than 2,048 rows would stand.
    LimitRows,
    /// A row or a value passes a limit of numbers.
    LimitDigits,
}

impl Answer {
    /// An equal answer.
    pub fn copy(&self, alloc: Global) -> Result<Answer, AllocError>
        ensures { IfOk result (λ a. a ≡ self.now) }
    {
        match self {
            Answer::Proved(steps) => Ok(Answer::Proved(steps.copy(alloc)?)),
            Answer::Refuted(assignment) => Ok(Answer::Refuted(assignment.copy(alloc)?)),
            Answer::LimitRows => Ok(Answer::LimitRows),
            Answer::LimitDigits => Ok(Answer::LimitDigits),
        }
    }
}
