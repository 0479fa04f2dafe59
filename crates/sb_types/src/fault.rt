//! Why a type has no place in the table.

use sb_layout::Fault;
use std::alloc::{AllocError, AllocFailed};

/// A type would have 2^31 bytes or more, the table holds as many types as it may, or memory ran out.
#[derive(Clone, Copy)]
pub enum TableFault {
    TooBig,
    Full,
    Memory,
}

impl From<AllocError> for TableFault {
    ghost use Rattle.std.specs.Prelude.{◌≡◌};
    ghost use Rattle.sb_types.specs.declared.fault.TableFault.TheVariants.{Memory};

    ghost from_gives = { λ _ e. e ≡ Memory };

    fn from(_e: AllocError) -> TableFault {
        TableFault::Memory
    }
}

impl<T: Drop> From<AllocFailed<T>> for TableFault {
    ghost use Rattle.std.specs.Prelude.{◌≡◌};
    ghost use Rattle.sb_types.specs.declared.fault.TableFault.TheVariants.{Memory};

    ghost from_gives = { λ _ e. e ≡ Memory };

    fn from(_e: AllocFailed<T>) -> TableFault {
        TableFault::Memory
    }
}

impl From<Fault> for TableFault {
    ghost use Rattle.std.specs.Prelude.{◌≡◌};
    ghost use Rattle.sb_types.specs.Faults.{fault_of};

    ghost from_gives = { λ f e. e ≡ fault_of f };

    fn from(f: Fault) -> TableFault {
        match f {
            Fault::TooBig => TableFault::TooBig,
            Fault::Memory => TableFault::Memory,
        }
    }
}
