//! The outside of the program: where the files come from, and where the report goes.
ghost use Rattle.std.specs.Prelude.{◌≡◌, ◌≤◌, ℕ, List, Option};
ghost use Rattle.sb_base.specs.Outside.{counted, Rose, HasFetchCause, HasPutCause, Appends, IsExact, PutsPiece};

use std::alloc::AllocError;
use thiserror::Error;

/// What a library has under a name.
#[derive(Clone, Copy, PartialEq, Eq)]
pub enum Fetched {
    /// The file, which has been appended whole.
    Held,
    /// No file.
    Absent,
    /// A file of more bytes than the limit.
    TooLong,
}

/// Why a library gave no answer: reading failed, or memory ran out.
#[derive(Clone, Copy, Debug, PartialEq, Eq, Error)]
pub enum FetchFault {
    #[error("reading failed")]
    Failed,
    #[error("out of memory")]
    Memory,
}

impl From<AllocError> for FetchFault {
    ghost use Rattle.std.specs.Prelude.{◌≡◌};
    ghost use Rattle.sb_base.specs.declared.outside.FetchFault.TheVariants.{Memory};

    ghost from_gives = { λ _ e. e ≡ Memory };

    fn from(_e: AllocError) -> FetchFault {
        FetchFault::Memory
    }
}

/// Why a sink did not take a piece whole: writing failed, or memory ran out.
#[derive(Clone, Copy, Debug, PartialEq, Eq, Error)]
pub enum PutFault {
    #[error("writing failed")]
    Failed,
    #[error("out of memory")]
    Memory,
}

impl From<AllocError> for PutFault {
    ghost use Rattle.std.specs.Prelude.{◌≡◌};
    ghost use Rattle.sb_base.specs.declared.outside.PutFault.TheVariants.{Memory};

    ghost from_gives = { λ _ e. e ≡ Memory };

    fn from(_e: AllocError) -> PutFault {
        PutFault::Memory
    }
}

/// The count after one more, which stands at the last value of a `u64`.
pub(crate) fn counted(count: u64) -> u64
    ensures value { result ≡ counted count }
    ensures rose { Rose count result }
    ensures grows { count ≤ result }
{
    count.saturating_add(1)
}

/// A place that files come from, by name.
///
/// It may tell what it holds, as a map from names to bytes that no call changes, or tell nothing. It counts its
/// failures in a `u64` that stands at its last value.
pub trait Library {
    // what the library tells of its files: the content by name
    ghost held: { Self → Option (List ℕ → Option (List ℕ)) };

    // how often reading has failed
    ghost faults: { Self → ℕ };

    /// Appends to `into` the file of that name, if it is there and has at most `limit` bytes.
    ///
    /// After each answer but `Held`, `into` is as before.
    fn fetch(
        &mut self,
        name: &[u8],
        limit: usize,
        into: &mut Vec<u8>,
    ) -> Result<Fetched, FetchFault>
        ensures held { held self.new ≡ held self.old }
        ensures cause { HasFetchCause (faults self.old) (faults self.new) result }
        ensures appended { Appends result limit into.old.items into.new.items }
        ensures exact { IsExact (held self.old) name.now limit into.old.items into.new.items result };
}

/// A place that bytes go to.
///
/// It may tell what was written, or tell nothing. It counts its failures in a `u64` that stands at its last value.
pub trait Sink {
    // the bytes written, if the sink tells them
    ghost written: { Self → Option (List ℕ) };

    // how often writing has failed
    ghost faults: { Self → ℕ };

    /// Appends `piece`. After a fault a prefix of it was appended.
    fn put(&mut self, piece: &[u8]) -> Result<(), PutFault>
        ensures puts { PutsPiece (written self.old) (written self.new) piece.now result }
        ensures cause { HasPutCause (faults self.old) (faults self.new) result };
}
