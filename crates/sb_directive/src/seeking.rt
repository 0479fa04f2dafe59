//! The header that an `#include` asks for (C99 6.10.2).
ghost use Rattle.std.specs.Prelude.{◌≡◌, ◌<◌, length};
ghost use Rattle.sb_directive.specs.Headers as spec;
ghost use Rattle.sb_directive.specs.Seeking.{HasSought, IsSeekResult, Unnamed, bad_of, is_at, sought_before, sought_by, sought_in, sought_open};
ghost use Rattle.sb_directive.specs.Sources.{beginning_seen};
ghost use Rattle.sb_directive.specs.Stopping.{IsStop};

use crate::headers::{Beginning, HeaderName, beginning_of};
use crate::lines::end_of;
use crate::refusal::stop_at;
use crate::rules::{MOST_TOKENS, Rules};
use sb_base::{Names, Place, PpKind, Stop};
use sb_lex::PpToken;
use sb_macro::End;
use std::alloc::Global;

/// A header that an `#include` names, and where.
#[derive(Drop)]
pub struct SoughtHeader {
    pub header: HeaderName,
    pub place: Place,
}

fn is_header(piece: &PpToken) -> bool
    ensures header { result ≡ spec.is_header piece.now }
{
    piece.kind == PpKind::Header
}

/// The header that a line begins with, whose last piece stands at `last`.
fn sought_in(beginning: Beginning, last: Place) -> Result<SoughtHeader, Stop>
    ensures sought { HasSought (sought_in (beginning_seen beginning) last) result }
{
    match beginning {
        Beginning::Names(header, place) => Ok(SoughtHeader { header, place }),
        Beginning::Bad(place) => Err(stop_at(24, place)),
        Beginning::Ends => Err(stop_at(24, last)),
    }
}

fn is_at(place: Place, other: Place) -> bool
    ensures at { result ≡ is_at place other }
{
    place.file == other.file && place.line == other.line && place.col == other.col
}

/// Where a line is seen to begin with no header.
fn bad_of(beginning: &Beginning) -> Option<Place>
    ensures bad { result ≡ bad_of (beginning_seen beginning.now) }
{
    match beginning {
        Beginning::Bad(place) => Some(*place),
        Beginning::Names(_, _) => None,
        Beginning::Ends => None,
    }
}

/// The refusal of a line in which macros are refused, where it was seen at `bad` to begin with no header.
fn stop_before(bad: Option<Place>, number: u16, place: Place) -> Stop
    ensures first { IsStop (λ n p. sought_before bad number place ≡ Unnamed n p) result }
{
    match bad {
        Some(bad) => {
            if is_at(bad, place) {
                stop_at(number, place)
            } else {
                stop_at(24, bad)
            }
        }
        None => stop_at(number, place),
    }
}

/// The refusal of a line that ends in a call, whose last piece stands at `last`.
fn stop_open(bad: Option<Place>, last: Place) -> Stop
    ensures first { IsStop (λ n p. sought_open bad last ≡ Unnamed n p) result }
{
    match bad {
        Some(bad) => stop_at(24, bad),
        None => stop_at(14, last),
    }
}

/// The header by how what macros give of a line begins, and how they end.
fn sought_by(beginning: Beginning, end: End, last: Place) -> Result<SoughtHeader, Stop>
    ensures sought { HasSought (sought_by (beginning_seen beginning) end last) result }
{
    match end {
        End::Whole => sought_in(beginning, last),
        End::Open => Err(stop_open(bad_of(&beginning), last)),
        End::Refused(number, place) => Err(stop_before(bad_of(&beginning), number, place)),
    }
}

/// The header that the pieces behind `include` name: a header name as it stands, and other pieces once macros are replaced.
///
/// Refused by 24 at the first piece with which no header begins, the last one where the line ends too early, or by 13, 14
/// or 16 where macros cannot be replaced, whichever comes first; of the two at one place the smaller number stands, but
/// the 14 of a line that ends in a call gives way.
///
/// Want of memory may come at any time.
pub fn seek(
    alloc: Global,
    names: &Names,
    rules: &Rules,
    behind: &[PpToken],
) -> Result<SoughtHeader, Stop>
    requires some { 0 < length behind.now }
    ensures sought { IsSeekResult names.now.texts rules.now behind.now result }
{
    let first = behind[0];
    if is_header(&first) {
        let Ok(begins) = beginning_of(alloc, names, behind) else {
            return Err(Stop::Memory);
        };
        return sought_in(begins, first.place);
    }
    let Ok(given) = rules.given(alloc, names, behind, MOST_TOKENS) else {
        return Err(Stop::Memory);
    };
    let Ok(begins) = beginning_of(alloc, names, given.pieces.as_slice()) else {
        return Err(Stop::Memory);
    };
    sought_by(begins, given.end, end_of(first.place, behind))
}
