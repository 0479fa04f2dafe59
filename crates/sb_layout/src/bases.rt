//! The base of a type of a table, as far as its parts are known.
ghost use Rattle.std.specs.Prelude.{◌≡◌, ◌≤◌, IfOk};
ghost use Rattle.std.specs.List.{All};
ghost use Rattle.std.specs.Option.{option_map};
ghost use Rattle.sb_core.specs.Layout as core;
ghost use Rattle.sb_layout.specs.Faults.{IsSmall, IsSmallIf, size_if, WhereTooBig};
ghost use Rattle.sb_layout.specs.Parts.{listed, AreSmall};

use crate::faults::Fault;
use crate::structs::{array_of, struct_of};
use sb_core::{Base, Kind, Member, TypeId};
use std::alloc::Global;

/// What is known of a type.
pub(crate) fn base_at(known: &[Option<Base>], t: TypeId) -> Option<Base>
    requires small { All IsSmallIf known.now }
    ensures gives { result ≡ core.base_at known.now t.0 }
    ensures small { IsSmallIf result }
{
    match known.get(t.0 as usize) {
        Some(b) => *b,
        None => None,
    }
}

/// The bases of members, where all are known.
pub(crate) fn bases_of(
    alloc: Global,
    known: &[Option<Base>],
    members: &[Member],
) -> Result<Option<Vec<Base>>, Fault>
    requires small { All IsSmallIf known.now }
    ensures gives { IfOk result (λ bases. listed bases ≡ core.bases_of known.now members.now) }
    ensures small { IfOk result AreSmall }
    ensures memory { WhereTooBig ⊥ result }
{
    let mut bases = Vec::new(alloc);
    for member in members {
        match base_at(known, member.type_id) {
            Some(b) => bases.push(b)?,
            None => return Ok(None),
        }
    }
    Ok(Some(bases))
}

/// The base of an array, where that of its elements is known.
fn base_of_array(known: &[Option<Base>], of: TypeId, count: u64) -> Result<Option<Base>, Fault>
    requires small { All IsSmallIf known.now }
    ensures gives { IfOk result
        (λ b. b ≡ option_map (core.array_of count) (core.base_at known.now of.0)) }
    ensures small { IfOk result IsSmallIf }
    ensures big { WhereTooBig
        (2147483648 ≤ size_if (option_map (core.array_of count) (core.base_at known.now of.0)))
        result }
{
    match base_at(known, of) {
        None => Ok(None),
        Some(b) => match array_of(count, b) {
            Some(whole) => Ok(Some(whole)),
            None => Err(Fault::TooBig),
        },
    }
}

/// The base of a struct, where those of its members are known.
fn base_of_struct(
    alloc: Global,
    known: &[Option<Base>],
    members: &[Member],
) -> Result<Option<Base>, Fault>
    requires small { All IsSmallIf known.now }
    ensures gives { IfOk result
        (λ b. b ≡ option_map core.struct_of (core.bases_of known.now members.now)) }
    ensures small { IfOk result IsSmallIf }
    ensures big { WhereTooBig
        (2147483648 ≤ size_if (option_map core.struct_of (core.bases_of known.now members.now)))
        result }
{
    match bases_of(alloc, known, members)? {
        None => Ok(None),
        Some(bases) => match struct_of(&bases) {
            Some(whole) => Ok(Some(whole)),
            None => Err(Fault::TooBig),
        },
    }
}

/// The base of a number of so many bits.
fn base_of_number(bits: u8) -> Base
    ensures gives { result ≡ record { size = core.bytes_of bits; align = core.bytes_of bits } }
    ensures small { IsSmall result }
{
    let size = (u64::from(bits) / 8).max(1);
    Base { size, align: size }
}

/// The base of a type, where those of its parts are known.
pub fn base_of(alloc: Global, known: &[Option<Base>], kind: &Kind) -> Result<Option<Base>, Fault>
    requires small { All IsSmallIf known.now }
    ensures gives { IfOk result (λ b. b ≡ core.base_of known.now kind.now) }
    ensures small { IfOk result IsSmallIf }
    ensures big { WhereTooBig (2147483648 ≤ size_if (core.base_of known.now kind.now)) result }
{
    match kind {
        Kind::Void => Ok(Some(Base { size: 0, align: 1 })),
        Kind::Number { bits, .. } => Ok(Some(base_of_number(*bits))),
        Kind::Pointer(_) => Ok(Some(Base { size: 8, align: 8 })),
        Kind::Array(of, count) => base_of_array(known, *of, *count),
        Kind::Struct(_, members) => base_of_struct(alloc, known, members),
    }
}
