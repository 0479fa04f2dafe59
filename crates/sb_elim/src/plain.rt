ghost use Rattle.std.specs.Prelude.{◌≡◌, None};

use crate::answer::answer;
use sb_term::{Answer, Decide, DecideFault, Query};
use std::alloc::Global;

/// The decider that keeps its rows in a plain list. It answers `LimitDigits` exactly where a number passes a limit, and
/// its only fault is want of memory.
#[derive(Clone, Copy, PartialEq, Eq)]
pub struct Plain;

impl Plain {
    /// A decider that has no stop.
    pub fn new() -> Plain
        ensures { ⟦<Plain as Decide>⟧.stop result ≡ None }
    {
        Plain
    }
}

impl Decide for Plain {
    ghost use Rattle.std.specs.Prelude.{None};
    ghost use Rattle.sb_term.specs.AnswerOf.{answer_of};
    ghost use Rattle.sb_term.proofs.Lawful.{lawful as lawful_answer};

    ghost stop = { λ _. None };

    ghost gives = { λ _ q. answer_of q };

    ghost after = { λ s _. s };

    fn decide(&mut self, alloc: Global, query: &Query) -> Result<Answer, DecideFault> {
        let found = answer(alloc, query)?;
        Ok(found)
    }

    ghost lawful = { λ _ q. lawful_answer q };
}
