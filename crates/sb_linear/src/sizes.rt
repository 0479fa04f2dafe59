//! Sizes in annotations.
ghost use Rattle.std.specs.Prelude.{◌≡◌, Some};
ghost use Rattle.sb_core.specs.Plain.{plain_size};
ghost use Rattle.sb_sum.specs.Lines as line;
ghost use Rattle.sb_linear.specs.Meaning.{GivesSum};
ghost use Rattle.sb_linear.specs.Scopes.{meant};
ghost use Rattle.sb_linear.specs.Sizes as spec;

use crate::fault::{SizeFault, exit_at_entry, not_linear};
use crate::moment::Moment;
use crate::names::pointer_named;
use crate::scope::Scope;
use crate::sums::{constant, in_units, joined_size, prefixed_tree};
use crate::values::{FieldPlaces, field_value, name_value, result_value, target_value};
use sb_base::Place;
use sb_core::{CoreSize, Size};
use std::alloc::Global;

/// `_Old_` stands around a parameter, `*p` or a field.
#[tactic(auto, unfolding(sb_core::specs::Plain::plain_size))]
fn may_be_old(size: &CoreSize) -> bool
    ensures { result ≡ spec.may_be_old (plain_size size.now) }
{
    match size {
        CoreSize::Name(_, _) => true,
        CoreSize::Target { .. } => true,
        CoreSize::Field { .. } => true,
        CoreSize::Number(_, _) => false,
        CoreSize::Null(_) => false,
        CoreSize::Result(_) => false,
        CoreSize::Old { .. } => false,
        CoreSize::Unary { .. } => false,
        CoreSize::Binary { .. } => false,
        CoreSize::Other(_) => false,
    }
}

/// The pointer parameter that a tree names.
#[tactic(auto, unfolding(sb_core::specs::Plain::plain_size))]
pub(crate) fn pointer_in(scope: &Scope, size: &CoreSize) -> Option<usize>
    ensures { result ≡ spec.pointer_in (meant scope.now) (plain_size size.now) }
{
    match size {
        CoreSize::Name(name, _) => pointer_named(scope, *name),
        CoreSize::Target { .. } => None,
        CoreSize::Field { .. } => None,
        CoreSize::Number(_, _) => None,
        CoreSize::Null(_) => None,
        CoreSize::Result(_) => None,
        CoreSize::Old { .. } => None,
        CoreSize::Unary { .. } => None,
        CoreSize::Binary { .. } => None,
        CoreSize::Other(_) => None,
    }
}

/// The sum that a size stands for in a clause of that moment. Refused are, at the first token that is so: a part that is
/// no sum of multiples of numbers, or whose numbers have more than 128 bits (61), a name that is no parameter and no
/// field (62), and `return` and `_Old_` at entry (65).
#[tactic(auto, unfolding(crate::specs::Sizes::linear, sb_core::specs::Plain::plain_size))]
pub fn linear(
    alloc: Global,
    scope: &Scope,
    moment: Moment,
    size: &CoreSize,
) -> Result<Size, SizeFault>
    ensures { GivesSum (spec.linear (meant scope.now) moment (plain_size size.now)) result }
{
    match size {
        CoreSize::Number(value, place) => Ok(constant(alloc, *value, *place)),
        CoreSize::Null(place) => Err(not_linear(*place)),
        CoreSize::Name(name, place) => name_value(alloc, scope, moment, *name, *place),
        CoreSize::Target {
            name,
            name_place,
            place,
        } => target_value(alloc, scope, moment, *name, *name_place, *place),
        CoreSize::Field {
            name,
            name_place,
            field,
            field_place,
            place,
        } => {
            let places = FieldPlaces {
                name: *name_place,
                field: *field_place,
                whole: *place,
            };
            field_value(alloc, scope, moment, *name, *field, places)
        }
        CoreSize::Result(place) => result_value(alloc, scope, moment, *place),
        CoreSize::Old { of, place } => {
            if !may_be_old(of) {
                return Err(not_linear(*place));
            }
            if matches!(moment, Moment::AtEntry) {
                return Err(exit_at_entry(*place));
            }
            linear(alloc, scope, Moment::TakenAtEntry, of)
        }
        CoreSize::Unary { op, of, place } => {
            let pointer = pointer_in(scope, of);
            let sum = linear(alloc, scope, moment, of);
            prefixed_tree(alloc, pointer, *op, *place, sum)
        }
        CoreSize::Binary {
            op,
            left,
            right,
            place,
        } => {
            let left = linear(alloc, scope, moment, left);
            let right = linear(alloc, scope, moment, right);
            joined_size(alloc, *op, *place, &left, &right)
        }
        CoreSize::Other(place) => Err(not_linear(*place)),
    }
}

/// The first token of a size.
#[tactic(auto, unfolding(sb_core::specs::Plain::plain_size))]
fn place_of(size: &CoreSize) -> Place
    ensures { result ≡ spec.place_of (plain_size size.now) }
{
    match size {
        CoreSize::Number(_, place) => *place,
        CoreSize::Null(place) => *place,
        CoreSize::Name(_, place) => *place,
        CoreSize::Target { place, .. } => *place,
        CoreSize::Field { place, .. } => *place,
        CoreSize::Result(place) => *place,
        CoreSize::Old { place, .. } => *place,
        CoreSize::Unary { place, .. } => *place,
        CoreSize::Binary { place, .. } => *place,
        CoreSize::Other(place) => *place,
    }
}

/// So many elements of `unit` bytes: as `linear`, and 61 at the size's first token where the number of bytes has more
/// than 128 bits.
pub fn bytes_of(
    alloc: Global,
    scope: &Scope,
    moment: Moment,
    unit: u64,
    size: &CoreSize,
) -> Result<Size, SizeFault>
    ensures { GivesSum (spec.bytes_of (meant scope.now) moment unit (plain_size size.now)) result }
{
    let count = linear(alloc, scope, moment, size);
    in_units(alloc, unit, place_of(size), count)
}
