//! The layout of a table of types.
ghost use Rattle.std.specs.Prelude.{◌≡◌, map, IfOk, IfErr};
ghost use Rattle.std.specs.List.{All};
ghost use Rattle.sb_core.specs.Layout as core;
ghost use Rattle.sb_core.specs.Layout.{IsFounded, layout_of};
ghost use Rattle.sb_layout.specs.Faults.{IsSmallIf, IsTooBig, WhereTooBig};
ghost use Rattle.sb_layout.specs.Laws.{AreSmallBases, IsFixed, IsRefused};

use crate::faults::Fault;
use crate::order::known_bases;
use crate::spots::spots_of;
use sb_base::{Place, Refusal, Stop};
use sb_core::{Base, Kind, Layout, Spot, Types};
use std::alloc::Global;

/// The bases, once each is known.
fn bases_in(alloc: Global, known: &[Option<Base>]) -> Result<Vec<Base>, Fault>
    ensures gives { IfOk result (λ bases. bases.items ≡ map core.base_or_none known.now) }
    ensures big { WhereTooBig ⊥ result }
{
    let mut bases = Vec::new(alloc);
    for b in known {
        bases.push(b.unwrap_or(Base { size: 0, align: 1 }))?;
    }
    Ok(bases)
}

/// The spots of each type's members.
fn spots_in(alloc: Global, known: &[Option<Base>], types: &[Kind]) -> Result<Vec<Vec<Spot>>, Fault>
    requires small { All IsSmallIf known.now }
    requires whole { All (λ kind. IsSmallIf (core.base_of known.now kind)) types.now }
    ensures gives { IfOk result
        (λ spots. map (λ v. v.items) spots.items ≡ map (core.spots_of known.now) types.now) }
    ensures big { WhereTooBig ⊥ result }
{
    let mut spots = Vec::new(alloc);
    for kind in types {
        let of_kind = spots_of(alloc, known, kind)?;
        spots.push(of_kind)?;
    }
    Ok(spots)
}

/// The layout of a table, or why it has none.
fn made(alloc: Global, types: &[Kind]) -> Result<Layout, Fault>
    requires founded { IsFounded types.now }
    ensures gives { IfOk result (λ l. l ≡ layout_of types.now) }
    ensures known { IfOk result (λ _. All IsSmallIf (core.known_of types.now)) }
    ensures big { WhereTooBig (IsTooBig types.now) result }
{
    let known = known_bases(alloc, types)?;
    let bases = bases_in(alloc, &known)?;
    let spots = spots_in(alloc, &known, types)?;
    Ok(Layout::new(bases, spots))
}

/// The layout of a table of types. Refused as 41, at no place, exactly where a type has 2^31 bytes or more.
pub fn layout(alloc: Global, types: &Types) -> Result<Layout, Stop>
    requires founded { IsFounded types.now.list.items }
    ensures gives { IfOk result (λ l. l ≡ layout_of types.now.list.items) }
    ensures fixed { IfOk result (IsFixed types.now.list.items) }
    ensures small { IfOk result AreSmallBases }
    ensures refused { IfErr result (IsRefused types.now.list.items) }
{
    match made(alloc, &types.list) {
        Ok(l) => Ok(l),
        Err(Fault::TooBig) => Err(Stop::Refused(Refusal {
            number: 41,
            place: Place {
                file: 0,
                line: 0,
                col: 0,
            },
            feature: 0,
        })),
        Err(Fault::Memory) => Err(Stop::Memory),
    }
}
