//! The fronts of conditions (C99 6.10.1, 6.6).

ghost use Rattle.std.specs.Prelude.{◌≡◌, ◌^◌, ◌<◌, IfOk, Option, length};
ghost use Rattle.sb_cond.specs.Front as spec;

use crate::arithmetic::fault_of;
use crate::expression::sequence;
use crate::line::{place_in, refusal_at, tokens_of};
use crate::sign::ConditionToken;
use sb_base::{Names, Place};
use sb_lex::PpToken;
use std::alloc::{AllocError, Global};

/// The position at which a front is refused, where so many tokens are left of it.
fn refusal_in(fault: Option<u32>, count: usize, left: usize) -> Option<usize>
    ensures at { result ≡ spec.refusal_in fault count left }
{
    if left == 0 {
        fault.map(|at| at as usize)
    } else {
        Some(refusal_at(fault, count, left))
    }
}

/// The position at which the front of a condition is refused, whatever follows it.
fn judge_front(tokens: &[ConditionToken]) -> Option<usize>
    ensures refused { spec.IsRefusedIn tokens.now result }
{
    match sequence(tokens, 200) {
        Ok(read) => refusal_in(fault_of(read.value), tokens.len(), read.rest.len()),
        Err(stop) => refusal_in(stop.fault, tokens.len(), stop.left),
    }
}

/// Where the pieces that a condition begins with are refused as 26, whatever follows them; None where they are not.
///
/// That is at the first piece with which no expression goes on so, or at an operator before it that is evaluated and
/// has no value: `1 2` is refused at the 2, `1 / 0 +` at the `/`, and `( 1 +` is not refused. It is at `end` for no
/// line, since the pieces may end anywhere.
pub fn front_refusal(
    alloc: Global,
    names: &Names,
    front: &[PpToken],
    end: Place,
) -> Result<Option<Place>, AllocError>
    requires count { length front.now < 2 ^ 32 }
    ensures refused { IfOk result (spec.FrontRefused names.now.texts front.now end) }
    ensures only { IfOk result
        (λ place. (other : Option Place) → spec.FrontRefused names.now.texts front.now end other
        → other ≡ place) }
{
    let tokens = tokens_of(alloc, names, front)?;
    match judge_front(tokens.as_slice()) {
        Some(at) => Ok(Some(place_in(front, end, at))),
        None => Ok(None),
    }
}
