//! Multiples of values in the order of their locations: sums, differences and multiples.
ghost use Rattle.std.specs.Prelude.{◌≡◌, ◌++◌, ◌+ℤ◌, ◌*ℤ◌, [], IfOk, OnOk, IfSome, IfNone, true, false};
ghost use Rattle.sb_sum.specs.Lines as spec;

use sb_core::{Atom, Location};
use std::alloc::{AllocError, Global};

/// Where a location stands among those of sums: parameters, what they point to, fields, and the result.
fn rank_of(location: Location) -> u32
    ensures { result ≡ spec.rank_of location }
{
    match location {
        Location::Param(_) => 0,
        Location::Target(_) => 1,
        Location::Field(_, _) => 2,
        Location::Result => 3,
    }
}

fn parameter_of(location: Location) -> u32
    ensures { result ≡ spec.parameter_of location }
{
    match location {
        Location::Param(param) => param,
        Location::Target(param) => param,
        Location::Field(param, _) => param,
        Location::Result => 0,
    }
}

fn member_of(location: Location) -> u32
    ensures { result ≡ spec.member_of location }
{
    match location {
        Location::Field(_, member) => member,
        _ => 0,
    }
}

/// Whether a value stands before another in a sum.
pub(crate) fn precedes(a: Atom, b: Atom) -> bool
    ensures { result ≡ spec.precedes a b }
{
    let (first, second) = (rank_of(a.at), rank_of(b.at));
    if first != second {
        return first < second;
    }
    let (first, second) = (parameter_of(a.at), parameter_of(b.at));
    if first != second {
        return first < second;
    }
    let (first, second) = (member_of(a.at), member_of(b.at));
    if first != second {
        return first < second;
    }
    !a.old && b.old
}

/// `a + b` or `a - b`, where it has 128 bits.
pub(crate) fn joined_number(minus: bool, a: i128, b: i128) -> Option<i128>
    ensures { result ≡ spec.held_number (a +ℤ (spec.sign_of minus *ℤ b)) }
{
    if minus {
        a.checked_sub(b)
    } else {
        a.checked_add(b)
    }
}

/// `b` or `-b`, where it has 128 bits.
pub(crate) fn signed_number(minus: bool, b: i128) -> Option<i128>
    ensures { result ≡ spec.held_number (spec.sign_of minus *ℤ b) }
{
    if minus { b.checked_neg() } else { Some(b) }
}

/// A number, which has 128 bits.
pub(crate) fn own_number(a: i128) -> Option<i128>
    ensures { result ≡ spec.held_number a }
{
    Some(a)
}
