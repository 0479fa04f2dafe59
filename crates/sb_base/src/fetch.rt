//! A file of a library read whole: whether it is there, whether it is short enough, and its bytes.
ghost use Rattle.std.specs.Prelude.{◌≡◌, IfOk};
ghost use Rattle.sb_base.specs.Found.{IsFound, seen, IsWithinLimit, HasReadCause};

use crate::outside::{FetchFault, Fetched, Library};
use std::alloc::Global;

/// The most bytes that a file may have.
const MOST_BYTES: usize = 4_194_304;

/// What a library has under a name.
#[derive(Drop)]
pub enum Found {
    /// No file.
    Missing,
    /// A file of more bytes than a file may have.
    TooBig,
    /// The bytes of a file.
    Whole(Vec<u8>),
}

/// Reads the file of that name whole.
pub fn fetch_file<L: Library>(alloc: Global, lib: &mut L, name: &[u8]) -> Result<Found, FetchFault>
    ensures found { IfOk result (λ found. IsFound (L.held lib.old) name.now (seen found)) }
    ensures within { IfOk result (λ found. IsWithinLimit found) }
    ensures held { L.held lib.new ≡ L.held lib.old }
    ensures cause { HasReadCause (L.faults lib.old) (L.faults lib.new) result }
{
    let mut bytes = Vec::new(alloc);
    match lib.fetch(name, MOST_BYTES, &mut bytes)? {
        Fetched::Held => Ok(Found::Whole(bytes)),
        Fetched::Absent => Ok(Found::Missing),
        Fetched::TooLong => Ok(Found::TooBig),
    }
}
