//! Files that are included (C99 6.10.2).
ghost use Rattle.std.specs.Prelude.{◌≡◌, ◌<◌, ◌≤◌, ◌+◌, ℕ, List, Some, None, MatchResult, IfOk, length};
ghost use Rattle.sb_base.specs.Found.{seen, IsWithinLimit, HasReadCause};
ghost use Rattle.sb_directive.specs.Headers.{BuiltIn};
ghost use Rattle.sb_directive.specs.Sources.{source_seen};
ghost use Rattle.sb_directive.specs.Stopping.{IsStop};
ghost use Rattle.sb_prep.specs.Reading.{IsOpen, IsShut, IsIncluded, IsBarred};
ghost use Rattle.sb_prep.specs.Standing.{moved_to};
ghost use Rattle.sb_prep.specs.Stopping.{IsFault, IsKept, HasCause, AreIn};
ghost use Rattle.sb_prep.specs.Unit.{IsContent, with_names};

use crate::fault::UnitFault;
use crate::state::State;
use sb_base::{FetchFault, Found, Library, Place, Stop, fetch_file};
use sb_directive::{Source, source_of, stop_at};
use sb_lex::PpToken;
use std::alloc::Global;

/// Files are included at most so deep.
const DEEPEST: u32 = 64;

/// The number of an included file, and its pieces.
#[derive(Drop)]
pub(crate) struct Included {
    pub(crate) file: u32,
    pub(crate) pieces: Vec<PpToken>,
}

/// What a source has: a text that is built in, or a file of the library.
fn content<L: Library>(alloc: Global, lib: &mut L, source: &Source) -> Result<Found, FetchFault>
    requires short { (name text : List ℕ) → source_seen source.now ≡ BuiltIn name text → length text
        ≤ 4194304 }
    ensures found { IfOk result
        (λ found. IsContent (L.held lib.old) (source_seen source.now) (seen found)) }
    ensures within { IfOk result (λ found. IsWithinLimit found) }
    ensures held { L.held lib.new ≡ L.held lib.old }
    ensures cause { HasReadCause (L.faults lib.old) (L.faults lib.new) result }
{
    match &source.text {
        Some(text) => Ok(Found::Whole(Vec::from_slice(alloc, text)?)),
        None => fetch_file(alloc, lib, &source.name),
    }
}

/// The pieces of what was found of an included file, whose header stands at a place.
fn included_file(
    alloc: Global,
    state: &mut State,
    depth: u32,
    file: u32,
    found: &Found,
    place: Place,
) -> Result<Included, Stop>
    requires within { IsWithinLimit found.now }
    ensures opened { MatchResult result
        (λ inner. IsOpen depth state.old file (seen found.now) state.new inner)
        (IsStop (IsShut depth state.old file (seen found.now) place state.new)) }
    ensures moved { state.new ≡ moved_to state.old (with_names state.old.at state.new.at.texts) }
{
    let bytes = match found {
        Found::Missing => return Err(stop_at(21, place)),
        Found::TooBig => return Err(stop_at(22, place)),
        Found::Whole(bytes) => bytes,
    };
    if depth >= DEEPEST {
        return Err(stop_at(23, place));
    }
    let pieces = state.lex(alloc, bytes, file)?;
    Ok(Included { file, pieces })
}

/// Carries out an `#include` in a file that is included so deep, by the pieces behind the word. None where the file gives
/// nothing more, since it is included once.
pub(crate) fn include<L: Library>(
    alloc: Global,
    lib: &mut L,
    state: &mut State,
    depth: u32,
    behind: &[PpToken],
) -> Result<Option<Included>, UnitFault>
    requires some { 0 < length behind.now }
    requires room { length state.old.at.files ≤ 2147483648 + state.old.at.read }
    requires held { AreIn (length state.old.at.files) behind.now }
    ensures included { MatchResult result
        (IsIncluded (L.held lib.old) depth behind.now state.old state.new)
        (IsFault (IsBarred (L.held lib.old) depth behind.now state.old state.new)) }
    ensures moved { state.new ≡ moved_to state.old state.new.at }
    ensures kept { IsKept state.old.at.files state.new.at.files }
    ensures held { L.held lib.new ≡ L.held lib.old }
    ensures cause { HasCause (L.faults lib.old) (L.faults lib.new) result }
{
    let sought = state.seek(alloc, behind)?;
    let source = source_of(alloc, &sought.header)?;
    let file = state.number(alloc, &source.name)?;
    if state.is_once(file) {
        return Ok(None);
    }
    let found = content(alloc, lib, &source)?;
    let inner = included_file(alloc, state, depth, file, &found, sought.place)?;
    Ok(Some(inner))
}
