//! Whoever judges the core of a set.
ghost use Rattle.std.specs.Prelude.{◌≡◌};

use crate::program::Core;
use sb_base::Stop;
use std::alloc::Global;

/// Whoever judges the core of a set of translation units. Its meaning gives each core a number of warnings or a refusal,
/// and stays the same.
pub trait Judge {
    ghost use Rattle.sb_core.specs.declared.program.Core.{Core as CoreValue};
    ghost use Rattle.sb_core.specs.Judging.{Judgement, IsJudged};

    ghost meaning: { Self → CoreValue → Judgement };

    /// The number of warnings of a core, its refusal, or want of memory.
    fn judge(&mut self, alloc: Global, set: &Core) -> Result<u64, Stop>
        ensures judged { IsJudged (meaning self.old set.now) result }
        ensures same { (core : CoreValue) → meaning self.new core ≡ meaning self.old core };
}
