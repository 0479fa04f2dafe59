//! Why an argument of an annotation is no size or condition.

ghost use Rattle.sb_linear.specs.Meaning as spec;

use sb_base::{Place, Refusal};
use std::alloc::{AllocError, AllocFailed};

/// The argument is refused, or memory ran out.
#[derive(Clone, Copy)]
pub enum SizeFault {
    Refused(Refusal),
    Memory,
}

impl From<AllocError> for SizeFault {
    ghost use Rattle.std.specs.Prelude.{◌≡◌};
    ghost use Rattle.sb_linear.specs.declared.fault.SizeFault.TheVariants.{Memory};

    ghost from_gives = { λ _ e. e ≡ Memory };

    fn from(_e: AllocError) -> SizeFault {
        SizeFault::Memory
    }
}

impl<T: Drop> From<AllocFailed<T>> for SizeFault {
    ghost use Rattle.std.specs.Prelude.{◌≡◌};
    ghost use Rattle.sb_linear.specs.declared.fault.SizeFault.TheVariants.{Memory};

    ghost from_gives = { λ _ e. e ≡ Memory };

    fn from(_e: AllocFailed<T>) -> SizeFault {
        SizeFault::Memory
    }
}

/// A refusal of this number.
fn refused(number: u16, place: Place) -> SizeFault
    ensures { spec.IsRefused number place result }
{
    SizeFault::Refused(Refusal {
        number,
        place,
        feature: 0,
    })
}

/// No sum of multiples.
pub(crate) fn not_linear(place: Place) -> SizeFault
    ensures { spec.IsRefused 61 place result }
{
    refused(61, place)
}

/// A name that is no parameter and no field.
pub(crate) fn no_such_place(place: Place) -> SizeFault
    ensures { spec.IsRefused 62 place result }
{
    refused(62, place)
}

/// A value of the exit in a clause of the entry.
pub(crate) fn exit_at_entry(place: Place) -> SizeFault
    ensures { spec.IsRefused 65 place result }
{
    refused(65, place)
}
