//! Whether the condition of an `#if` holds (C99 6.10.1).
ghost use Rattle.std.specs.Prelude.{◌≡◌, ◌<◌, ◌^◌, ◌⊎◌, MatchResult, length};
ghost use Rattle.sb_base.specs.Names.{IsDistinct};
ghost use Rattle.sb_directive.specs.Conditions as spec;
ghost use Rattle.sb_directive.specs.Conditions.{HasTruth, HasNoTruth, HasOneAnswer};
ghost use Rattle.sb_directive.specs.Judging.{IsFirstRefusal, ending_of, refusal_of};
ghost use Rattle.sb_directive.specs.Stopping.{IsStop, IsAmong};

use crate::defined::prepare;
use crate::lines::end_of;
use crate::refusal::stop_at;
use crate::rules::{MOST_TOKENS, Rules};
use sb_base::{Names, Place, Refusal, Stop};
use sb_cond::{condition, front_refusal};
use sb_lex::PpToken;
use sb_macro::End;
use std::alloc::Global;

fn is_before(place: Place, other: Place) -> bool
    ensures before { result ≡ spec.is_before place other }
{
    place.line < other.line || (place.line == other.line && place.col < other.col)
}

/// The refusal of a line by a number at a place, or a 26 at `first` that comes before it.
fn sooner(number: u16, place: Place, first: Option<Place>) -> (u16, Place)
    ensures sooner { result ≡ spec.sooner number place first }
{
    let Some(first) = first else {
        return (number, place);
    };
    if is_before(first, place) || (!is_before(place, first) && 26 < number) {
        (26, first)
    } else {
        (number, place)
    }
}

/// The refusal of a line of which macros give these pieces before it is refused by a number at a place.
fn first_refusal(alloc: Global, names: &Names, given: &[PpToken], refusal: (u16, Place)) -> Stop
    requires count { length given.now < 2 ^ 32 }
    ensures first { IsFirstRefusal names.now.texts given.now refusal.0 refusal.1 result }
{
    match front_refusal(alloc, names, given, refusal.1) {
        Ok(first) => {
            let earliest = sooner(refusal.0, refusal.1, first);
            stop_at(earliest.0, earliest.1)
        }
        Err(_) => Stop::Memory,
    }
}

/// The number and the place by which a line is refused: the refusal that ends its pieces, if there is one, and how the
/// expansion of these ends, the last of which stands at `last`. None where all is read.
fn refusal_of(refusal: Option<Refusal>, end: End, last: Place) -> Option<(u16, Place)>
    ensures refusal { result ≡ refusal_of (ending_of refusal) end last }
{
    match end {
        End::Refused(number, place) => Some((number, place)),
        End::Open => match refusal {
            Some(refusal) => Some((refusal.number, refusal.place)),
            None => Some((14, last)),
        },
        End::Whole => match refusal {
            Some(refusal) => Some((refusal.number, refusal.place)),
            None => None,
        },
    }
}

/// Whether the condition of an `#if` or `#elif` holds, whose word stands at the place, by the pieces behind the word:
/// the operator `defined` is replaced first, then macros are, and then the expression is judged.
///
/// Refused by 26 or 28 where `defined` cannot be replaced, by 13, 14 or 16 where macros cannot be, and by 26 where the
/// rest is no expression or an operator in it has no value, at the piece that makes it so, the last one where it ends
/// too early, and the word where the line is empty. What macros give before a refusal of the first two kinds is judged
/// as the front of a condition; the refusal that stands first in the text is given, and of two at one place that of the
/// smaller number.
///
/// Want of memory may come at any time.
#[tactic(auto, using(crate::proofs::ConditionsOnce::one_condition))]
pub fn truth(
    alloc: Global,
    names: &mut Names,
    rules: &Rules,
    at: Place,
    line: &[PpToken],
) -> Result<bool, Stop>
    ensures truth { MatchResult result
        (λ holds. HasTruth names.old.limit names.old.texts rules.now at line.now holds
        names.new.texts)
        (IsStop (λ number place. HasNoTruth names.old.limit names.old.texts rules.now at line.now
        number place × ((place ≡ at) ⊎ IsAmong line.now place))) }
    ensures limit { names.new.limit ≡ names.old.limit }
    ensures distinct { IsDistinct names.old.texts → IsDistinct names.new.texts }
    ensures only { IsDistinct names.old.texts → HasOneAnswer names.old.limit names.old.texts
        rules.now at line.now }
{
    let Ok(made) = prepare(alloc, names, rules, line) else {
        return Err(Stop::Memory);
    };
    let Ok(given) = rules.given(alloc, names, &made.pieces, MOST_TOKENS) else {
        return Err(Stop::Memory);
    };
    match refusal_of(made.refusal, given.end, end_of(at, &made.pieces)) {
        Some(refusal) => Err(first_refusal(alloc, names, &given.pieces, refusal)),
        None => condition(alloc, names, &given.pieces, end_of(at, line)),
    }
}
