ghost use Rattle.std.specs.Prelude.{◌≡◌};

use std::alloc::{AllocError, AllocFailed};
use thiserror::Error;

/// Why a term was not formed: a coefficient reaches 2^40 or the constant 2^80 in absolute value, or want of memory.
#[derive(Clone, Copy, Debug, PartialEq, Eq, Error)]
pub enum TermFault {
    #[error("a coefficient or a constant is too wide")]
    TooWide,
    #[error("out of memory")]
    Memory,
}

impl From<AllocError> for TermFault {
    ghost use Rattle.sb_term.specs.declared.fault.TermFault.TheVariants.{Memory};

    ghost from_gives = { λ _ e. e ≡ Memory };

    fn from(_error: AllocError) -> TermFault {
        TermFault::Memory
    }
}

impl<T: Drop> From<AllocFailed<T>> for TermFault {
    ghost use Rattle.sb_term.specs.declared.fault.TermFault.TheVariants.{Memory};

    ghost from_gives = { λ _ e. e ≡ Memory };

    fn from(_error: AllocFailed<T>) -> TermFault {
        TermFault::Memory
    }
}

/// Why a decider does not answer: a bad line or a missing line of a certificate, or want of memory.
#[derive(Clone, Copy, Debug, PartialEq, Eq, Error)]
pub enum DecideFault {
    #[error("line {0} of the certificate is bad")]
    BadLine(u32),
    #[error("line {0} of the certificate is missing")]
    EndOfCert(u32),
    #[error("out of memory")]
    Memory,
}

impl From<AllocError> for DecideFault {
    ghost use Rattle.sb_term.specs.declared.fault.DecideFault.TheVariants.{Memory};

    ghost from_gives = { λ _ e. e ≡ Memory };

    fn from(_error: AllocError) -> DecideFault {
        DecideFault::Memory
    }
}

impl<T: Drop> From<AllocFailed<T>> for DecideFault {
    ghost use Rattle.sb_term.specs.declared.fault.DecideFault.TheVariants.{Memory};

    ghost from_gives = { λ _ e. e ≡ Memory };

    fn from(_error: AllocFailed<T>) -> DecideFault {
        DecideFault::Memory
    }
}
