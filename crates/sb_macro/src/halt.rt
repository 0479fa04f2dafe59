//! Why reading a definition or expanding a text stops.
ghost use Rattle.std.specs.Prelude.{◌≡◌};
ghost use Rattle.sb_macro.specs.Halts.{nowhere, stop_of};

use sb_base::{Place, Refusal, Stop};
use std::alloc::{AllocError, AllocFailed};

/// The number and the place of a refusal, or want of memory.
#[derive(Clone, Copy, PartialEq, Eq)]
pub enum Halt {
    Refused(u16, Place),
    Memory,
}

impl From<AllocError> for Halt {
    ghost use Rattle.std.specs.Prelude.{◌≡◌};
    ghost use Rattle.sb_macro.specs.declared.halt.Halt.TheVariants.{Memory};

    ghost from_gives = { λ _ e. e ≡ Memory };

    fn from(_e: AllocError) -> Halt {
        Halt::Memory
    }
}

impl<T: Drop> From<AllocFailed<T>> for Halt {
    ghost use Rattle.std.specs.Prelude.{◌≡◌};
    ghost use Rattle.sb_macro.specs.declared.halt.Halt.TheVariants.{Memory};

    ghost from_gives = { λ _ e. e ≡ Memory };

    fn from(_e: AllocFailed<T>) -> Halt {
        Halt::Memory
    }
}

/// The same as callers see it: macros name no feature.
pub fn stop_of(halt: Halt) -> Stop
    ensures { result ≡ stop_of halt }
{
    match halt {
        Halt::Refused(number, place) => Stop::Refused(Refusal {
            number,
            place,
            feature: 0,
        }),
        Halt::Memory => Stop::Memory,
    }
}

/// The place of what stands in no file.
pub fn nowhere() -> Place
    ensures { result ≡ nowhere }
{
    Place {
        file: 0,
        line: 0,
        col: 0,
    }
}
