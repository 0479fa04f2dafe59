//! Why a unit has no tokens.
use sb_base::{FetchFault, Refusal, Stop};
use std::alloc::{AllocError, AllocFailed};

/// Why a unit has no tokens: its source is refused, the library failed to read a file, or memory ran out.
#[derive(Clone, Copy, PartialEq, Eq)]
pub enum UnitFault {
    Refused(Refusal),
    Read,
    Memory,
}

impl From<Stop> for UnitFault {
    ghost use Rattle.std.specs.Prelude.{◌≡◌};
    ghost use Rattle.sb_prep.specs.Stopping.{fault_of_stop};

    ghost from_gives = { λ stop fault. fault ≡ fault_of_stop stop };

    fn from(stop: Stop) -> UnitFault {
        match stop {
            Stop::Refused(refusal) => UnitFault::Refused(refusal),
            Stop::Memory => UnitFault::Memory,
        }
    }
}

impl From<FetchFault> for UnitFault {
    ghost use Rattle.std.specs.Prelude.{◌≡◌};
    ghost use Rattle.sb_prep.specs.Stopping.{fault_of_fetch};

    ghost from_gives = { λ fetch fault. fault ≡ fault_of_fetch fetch };

    fn from(fetch: FetchFault) -> UnitFault {
        match fetch {
            FetchFault::Failed => UnitFault::Read,
            FetchFault::Memory => UnitFault::Memory,
        }
    }
}

impl From<AllocError> for UnitFault {
    ghost use Rattle.std.specs.Prelude.{◌≡◌};
    ghost use Rattle.sb_prep.specs.declared.fault.UnitFault.TheVariants.{Memory};

    ghost from_gives = { λ _ fault. fault ≡ Memory };

    fn from(_e: AllocError) -> UnitFault {
        UnitFault::Memory
    }
}
