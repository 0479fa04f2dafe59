//! Where the members of a struct stand, and the padding behind them.
ghost use Rattle.std.specs.Prelude.{◌≡◌, ◌<◌, ◌≤◌, IfOk};
ghost use Rattle.std.specs.List.{All};
ghost use Rattle.std.specs.Option.{option_map};
ghost use Rattle.sb_core.specs.Layout as core;
ghost use Rattle.sb_layout.specs.Faults.{IsSmall, IsSmallIf, WhereTooBig};

use crate::bases::bases_of;
use crate::faults::Fault;
use crate::structs::{greatest_align, rounded};
use sb_core::{Base, Kind, Member, Spot};
use std::alloc::Global;

/// The alignment of the first of these members, or of the struct behind the last.
fn next_align(whole: u64, rest: &[Base]) -> u64
    requires small { All IsSmall rest.now }
    requires positive { 0 < whole }
    requires most { whole ≤ 32 }
    ensures gives { result ≡ core.next_align whole rest.now }
    ensures positive { 0 < result }
    ensures most { result ≤ 32 }
{
    match rest.first() {
        Some(b) => b.align,
        None => whole,
    }
}

/// The spot of a member behind `at`, before what is aligned to `next`.
fn spot_at(at: u64, of: Base, next: u64) -> Spot
    requires small { IsSmall of }
    requires at { at < 2147483648 }
    requires positive { 0 < next }
    requires most { next ≤ 32 }
    ensures { result ≡ core.spot_at at of next }
{
    let offset = rounded(at, of.align);
    let end = offset + of.size;
    Spot {
        offset,
        pad: rounded(end, next) - end,
    }
}

/// The spots of the members of a struct.
fn spots_from(alloc: Global, whole: u64, bases: &[Base]) -> Result<Vec<Spot>, Fault>
    requires small { All IsSmall bases.now }
    requires end { core.end_from 0 bases.now < 2147483648 }
    requires positive { 0 < whole }
    requires most { whole ≤ 32 }
    ensures gives { IfOk result (λ spots. spots.items ≡ core.spots_from whole 0 bases.now) }
    ensures big { WhereTooBig ⊥ result }
{
    let mut spots = Vec::new(alloc);
    let mut at = 0;
    for (i, b) in bases.iter().enumerate() {
        let next = next_align(whole, &bases[i + 1..]);
        spots.push(spot_at(at, *b, next))?;
        at = rounded(at, b.align) + b.size;
    }
    Ok(spots)
}

/// The spots of the members of a struct of a table that is known.
fn spots_of_struct(
    alloc: Global,
    known: &[Option<Base>],
    members: &[Member],
) -> Result<Vec<Spot>, Fault>
    requires small { All IsSmallIf known.now }
    requires whole { IsSmallIf (option_map core.struct_of (core.bases_of known.now members.now)) }
    ensures gives { IfOk result
        (λ spots. spots.items ≡ core.spots_among (core.bases_of known.now members.now)) }
    ensures big { WhereTooBig ⊥ result }
{
    match bases_of(alloc, known, members)? {
        None => Ok(Vec::new(alloc)),
        Some(bases) => spots_from(alloc, greatest_align(&bases), &bases),
    }
}

/// The spots of a type's members.
pub(crate) fn spots_of(
    alloc: Global,
    known: &[Option<Base>],
    kind: &Kind,
) -> Result<Vec<Spot>, Fault>
    requires small { All IsSmallIf known.now }
    requires whole { IsSmallIf (core.base_of known.now kind.now) }
    ensures gives { IfOk result (λ spots. spots.items ≡ core.spots_of known.now kind.now) }
    ensures big { WhereTooBig ⊥ result }
{
    match kind {
        Kind::Struct(_, members) => spots_of_struct(alloc, known, members),
        Kind::Void | Kind::Number { .. } | Kind::Pointer(_) | Kind::Array(..) => {
            Ok(Vec::new(alloc))
        }
    }
}
