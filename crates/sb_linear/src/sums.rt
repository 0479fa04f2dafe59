//! Operators on sums, as far as they give sums of 128 bits.
ghost use Rattle.std.specs.Prelude.{◌≡◌, Ok, Some, IfOk};
ghost use Rattle.std.specs.Option.{option_map};
ghost use Rattle.sb_core.specs.declared.operator.SizeUnary.TheVariants as unary;
ghost use Rattle.sb_sum.specs.Lines as line;
ghost use Rattle.sb_sum.specs.Lines.{plain_line};
ghost use Rattle.sb_linear.specs.Meaning.{GivesSum};
ghost use Rattle.sb_linear.specs.Sizes as spec;
ghost use Rattle.sb_linear.specs.Sizes.{Sized};

use crate::constants::{constant_of, negated};
use crate::fault::{SizeFault, not_linear};
use sb_base::Place;
use sb_core::{NumOp, Size, SizeBinary, SizeUnary};
use sb_sum::{combined, scaled};
use std::alloc::{AllocError, Global};

/// Whether a sum is a constant.
fn is_constant(size: &Size) -> bool
    ensures { result ≡ line.is_constant (plain_line size.now) }
{
    size.parts.is_empty()
}

/// A constant.
pub(crate) fn constant(alloc: Global, value: i128, place: Place) -> Size
    ensures { GivesSum (spec.held place (Some (line.constant_line value))) (Ok result) }
{
    Size {
        parts: Vec::new(alloc),
        constant: value,
    }
}

fn constant_if(alloc: Global, value: Option<i128>) -> Option<Size>
    ensures { option_map plain_line result ≡ option_map line.constant_line value }
{
    Some(Size {
        parts: Vec::new(alloc),
        constant: value?,
    })
}

/// A sum, where there is one.
fn held(size: Option<Size>, place: Place) -> Result<Size, SizeFault>
    ensures { GivesSum (spec.sum_or place (option_map plain_line size)) result }
{
    match size {
        Some(size) => Ok(size),
        None => Err(not_linear(place)),
    }
}

/// An operator that has constants on both sides.
fn between_constants(alloc: Global, op: SizeBinary, left: &Size, right: &Size) -> Option<Size>
    ensures { option_map plain_line result ≡ spec.held_line_if
        (spec.between_constants op (plain_line left.now) (plain_line right.now)) }
{
    if is_constant(left) && is_constant(right) {
        constant_if(alloc, constant_of(op, left.constant, right.constant))
    } else {
        None
    }
}

/// A product, of which one side is a constant.
fn product(alloc: Global, left: &Size, right: &Size) -> Result<Option<Size>, AllocError>
    ensures { IfOk result (λ size. option_map plain_line size ≡ spec.held_line_if
        (spec.product (plain_line left.now) (plain_line right.now))) }
{
    if is_constant(left) {
        scaled(alloc, left.constant, right)
    } else if is_constant(right) {
        scaled(alloc, right.constant, left)
    } else {
        Ok(None)
    }
}

/// An operator on two numbers.
fn joined_number(
    alloc: Global,
    op: NumOp,
    left: &Size,
    right: &Size,
) -> Result<Option<Size>, AllocError>
    ensures { IfOk result (λ size. option_map plain_line size ≡ spec.held_line_if
        (spec.joined_number op (plain_line left.now) (plain_line right.now))) }
{
    match op {
        NumOp::Add => combined(alloc, false, left, right),
        NumOp::Sub => combined(alloc, true, left, right),
        NumOp::Mul => product(alloc, left, right),
        NumOp::Div | NumOp::Rem | NumOp::Shl | NumOp::Shr | NumOp::And | NumOp::Xor | NumOp::Or =>
            Ok(between_constants(alloc, SizeBinary::Num(op), left, right)),
    }
}

/// An operator on two sums.
fn joined_lines(
    alloc: Global,
    op: SizeBinary,
    left: &Size,
    right: &Size,
) -> Result<Option<Size>, AllocError>
    ensures { IfOk result (λ size. option_map plain_line size ≡ spec.held_line_if
        (spec.joined_lines op (plain_line left.now) (plain_line right.now))) }
{
    match op {
        SizeBinary::Num(op) => joined_number(alloc, op, left, right),
        SizeBinary::Compare(_) | SizeBinary::And | SizeBinary::Or => {
            Ok(between_constants(alloc, op, left, right))
        }
    }
}

/// An operator between two sizes.
pub(crate) fn joined(
    alloc: Global,
    op: SizeBinary,
    place: Place,
    left: &Size,
    right: &Size,
) -> Result<Size, SizeFault>
    ensures { GivesSum (spec.held place
        (spec.joined_lines op (plain_line left.now) (plain_line right.now))) result }
{
    held(joined_lines(alloc, op, left, right)?, place)
}

/// A multiple of a size.
pub(crate) fn multiple(
    alloc: Global,
    by: i128,
    place: Place,
    size: &Size,
) -> Result<Size, SizeFault>
    ensures { GivesSum (spec.held place (Some (line.scaled by (plain_line size.now)))) result }
{
    held(scaled(alloc, by, size)?, place)
}

/// `~` of a constant.
fn inverted(alloc: Global, place: Place, size: &Size) -> Result<Size, SizeFault>
    ensures { GivesSum (spec.prefixed_sum unary.Invert place (plain_line size.now)) result }
{
    if is_constant(size) {
        Ok(constant(alloc, !size.constant, place))
    } else {
        Err(not_linear(place))
    }
}

/// `!` of a constant.
fn denied(alloc: Global, place: Place, size: &Size) -> Result<Size, SizeFault>
    ensures { GivesSum (spec.prefixed_sum unary.Not place (plain_line size.now)) result }
{
    if is_constant(size) {
        Ok(constant(alloc, negated(size.constant), place))
    } else {
        Err(not_linear(place))
    }
}

/// An operator before a size.
pub(crate) fn prefixed(
    alloc: Global,
    op: SizeUnary,
    place: Place,
    size: Size,
) -> Result<Size, SizeFault>
    ensures { GivesSum (spec.prefixed_sum op place (plain_line size)) result }
{
    match op {
        SizeUnary::Plus => Ok(size),
        SizeUnary::Minus => multiple(alloc, -1, place, &size),
        SizeUnary::Invert => inverted(alloc, place, &size),
        SizeUnary::Not => denied(alloc, place, &size),
    }
}

/// An operator before a size, where that is one.
#[tactic(auto, using(crate::proofs::Answering::prefixed_gives, crate::proofs::Answering::prefixed_fails))]
fn prefixed_size(
    alloc: Global,
    op: SizeUnary,
    place: Place,
    of: Result<Size, SizeFault>,
) -> Result<Size, SizeFault>
    ensures { (d : Sized) → GivesSum d of → GivesSum (spec.prefixed op place d) result }
{
    prefixed(alloc, op, place, of?)
}

/// An operator before a size that may name a pointer parameter.
pub(crate) fn prefixed_tree(
    alloc: Global,
    pointer: Option<usize>,
    op: SizeUnary,
    place: Place,
    of: Result<Size, SizeFault>,
) -> Result<Size, SizeFault>
    ensures { (d : Sized) → GivesSum d of → GivesSum (spec.prefixed_tree pointer op place d) result }
{
    if pointer.is_some() && matches!(op, SizeUnary::Not) {
        return Err(not_linear(place));
    }
    prefixed_size(alloc, op, place, of)
}

/// An operator between two sizes, where both are some.
#[tactic(auto, using(crate::proofs::Answering::joined_gives, crate::proofs::Answering::joined_fails, crate::proofs::Answering::joined_fails_first))]
pub(crate) fn joined_size(
    alloc: Global,
    op: SizeBinary,
    place: Place,
    left: &Result<Size, SizeFault>,
    right: &Result<Size, SizeFault>,
) -> Result<Size, SizeFault>
    ensures { (d e : Sized) → GivesSum d left.now → GivesSum e right.now
        → GivesSum (spec.joined op place d e) result }
{
    match left {
        Ok(left) => match right {
            Ok(right) => joined(alloc, op, place, left, right),
            Err(fault) => Err(*fault),
        },
        Err(fault) => Err(*fault),
    }
}

/// So many units of a size, where that is one.
#[tactic(auto, using(crate::proofs::Answering::in_units_gives, crate::proofs::Answering::in_units_fails))]
pub(crate) fn in_units(
    alloc: Global,
    unit: u64,
    place: Place,
    size: Result<Size, SizeFault>,
) -> Result<Size, SizeFault>
    ensures { (d : Sized) → GivesSum d size → GivesSum (spec.in_units unit place d) result }
{
    multiple(alloc, i128::from(unit), place, &size?)
}
