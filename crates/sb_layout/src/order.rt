//! The bases of all types of a table. Each type is looked at when its parts are known: a list of types that wait takes
//! the place of a recursion, so a chain of structs ends no stack, and each member is looked at a fixed number of times.
ghost use Rattle.std.specs.Prelude.{◌≡◌, ◌<◌, length, is_some, true, IfOk, OnOk};
ghost use Rattle.std.specs.List.{All};
ghost use Rattle.sb_core.specs.Layout as core;
ghost use Rattle.sb_core.specs.Layout.{IsFounded, known_of};
ghost use Rattle.sb_layout.specs.Faults.{IsPart, Grows, IsSmallIf, IsTooBig, WhereTooBig};

use crate::bases::base_of;
use crate::faults::Fault;
use sb_core::{Base, Kind, Member};
use std::alloc::Global;

/// Has the types of members wait.
fn add_members(waiting: &mut Vec<usize>, members: &[Member]) -> Result<(), Fault>
    ensures big { WhereTooBig ⊥ result }
{
    for member in members {
        waiting.push(member.type_id.0 as usize)?;
    }
    Ok(())
}

/// Has the parts of a type wait.
fn add_parts(waiting: &mut Vec<usize>, kind: &Kind) -> Result<(), Fault>
    ensures big { WhereTooBig ⊥ result }
{
    match kind {
        Kind::Void | Kind::Number { .. } | Kind::Pointer(_) => Ok(()),
        Kind::Array(of, _) => {
            waiting.push(of.0 as usize)?;
            Ok(())
        }
        Kind::Struct(_, members) => add_members(waiting, members),
    }
}

/// Has a type wait, with its parts in front of it.
fn wait(waiting: &mut Vec<usize>, t: usize, kind: &Kind) -> Result<(), Fault>
    ensures big { WhereTooBig ⊥ result }
{
    waiting.push(t)?;
    add_parts(waiting, kind)
}

/// Learns the base of a type, or has it wait again with its parts in front of it.
fn visit(
    alloc: Global,
    types: &[Kind],
    known: &mut Vec<Option<Base>>,
    waiting: &mut Vec<usize>,
    t: usize,
) -> Result<(), Fault>
    requires founded { IsFounded types.now }
    requires part { IsPart types.now known.old.items }
    ensures part { IsPart types.now known.new.items }
    ensures grows { Grows known.old.items known.new.items }
    ensures big { WhereTooBig (IsTooBig types.now) result }
{
    if t >= types.len() || known[t].is_some() {
        return Ok(());
    }
    match base_of(alloc, known, &types[t]) {
        Err(fault) => Err(fault),
        Ok(found) => match found {
            Some(b) => {
                known[t] = Some(b);
                Ok(())
            }
            None => wait(waiting, t, &types[t]),
        },
    }
}

/// Learns the base of a type and of what it has as parts.
fn learn(
    alloc: Global,
    types: &[Kind],
    known: &mut Vec<Option<Base>>,
    root: usize,
) -> Result<(), Fault>
    requires founded { IsFounded types.now }
    requires part { IsPart types.now known.old.items }
    requires within { root < length types.now }
    ensures part { IsPart types.now known.new.items }
    ensures grows { Grows known.old.items known.new.items }
    ensures learnt { OnOk result (is_some (core.base_at known.new.items root) ≡ true) }
    ensures big { WhereTooBig (IsTooBig types.now) result }
{
    let mut waiting = Vec::new(alloc);
    for _turn in 0..u64::MAX {
        if known[root].is_some() {
            return Ok(());
        }
        let t = waiting.pop().unwrap_or(root);
        visit(alloc, types, known, &mut waiting, t)?;
    }
    Err(Fault::Memory)
}

/// A table of which nothing is known.
fn nothing_known(alloc: Global, types: &[Kind]) -> Result<Vec<Option<Base>>, Fault>
    ensures part { IfOk result (λ known. IsPart types.now known.items) }
    ensures big { WhereTooBig ⊥ result }
{
    let mut known = Vec::new(alloc);
    for _kind in types {
        known.push(None)?;
    }
    Ok(known)
}

/// The bases of all types.
pub(crate) fn known_bases(alloc: Global, types: &[Kind]) -> Result<Vec<Option<Base>>, Fault>
    requires founded { IsFounded types.now }
    ensures gives { IfOk result (λ known. known.items ≡ known_of types.now) }
    ensures small { IfOk result (λ known. All IsSmallIf known.items) }
    ensures big { WhereTooBig (IsTooBig types.now) result }
{
    let mut known = nothing_known(alloc, types)?;
    for root in 0..types.len() {
        learn(alloc, types, &mut known, root)?;
    }
    Ok(known)
}
