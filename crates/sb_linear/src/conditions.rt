//! Conditions in annotations.
ghost use Rattle.std.specs.Prelude.{◌≡◌, ◌++◌, ◌∷◌, [], IfErr, IfOk, Some, map, true};
ghost use Rattle.std.specs.Option.{option_map};
ghost use Rattle.sb_core.specs.Plain.{plain_size};
ghost use Rattle.sb_sum.specs.Lines.{plain_line};
ghost use Rattle.sb_linear.specs.Meaning.{GivesCondition, GivesSum, IsMemory, plain_comparison};
ghost use Rattle.sb_linear.specs.Scopes as scopes;
ghost use Rattle.sb_linear.specs.Scopes.{meant};
ghost use Rattle.sb_linear.specs.Sizes as spec;
ghost use Rattle.sb_linear.specs.Sizes.{Judged, Sized};

use crate::fault::{SizeFault, not_linear};
use crate::moment::Moment;
use crate::names::pointer_named;
use crate::scope::Scope;
use crate::sizes::{linear, pointer_in};
use crate::values::position;
use sb_base::Name;
use sb_core::{Compare, CompareOp, CoreSize, Size, SizeBinary};
use std::alloc::{AllocError, Global};

#[tactic(auto, unfolding(sb_core::specs::Plain::plain_size))]
fn is_null(size: &CoreSize) -> bool
    ensures { result ≡ spec.is_null (plain_size size.now) }
{
    match size {
        CoreSize::Null(_) => true,
        CoreSize::Name(_, _) => false,
        CoreSize::Target { .. } => false,
        CoreSize::Field { .. } => false,
        CoreSize::Number(_, _) => false,
        CoreSize::Result(_) => false,
        CoreSize::Old { .. } => false,
        CoreSize::Unary { .. } => false,
        CoreSize::Binary { .. } => false,
        CoreSize::Other(_) => false,
    }
}

/// Whether a pointer that is compared so with null is present.
fn says_present(op: CompareOp) -> Option<bool>
    ensures { result ≡ spec.says_present op }
{
    match op {
        CompareOp::Equal => Some(false),
        CompareOp::NotEqual => Some(true),
        CompareOp::Less => None,
        CompareOp::AtMost => None,
        CompareOp::Greater => None,
        CompareOp::AtLeast => None,
    }
}

/// That a pointer parameter is present, or is not.
fn presence(param: Option<usize>, says: Option<bool>) -> Result<Option<Compare>, SizeFault>
    ensures is { IfOk result
        (λ c. option_map plain_comparison c ≡ spec.presence param says) }
    ensures memory { IfErr result IsMemory }
{
    let Some(param) = param else {
        return Ok(None);
    };
    let Some(holds) = says else {
        return Ok(None);
    };
    let param = position(param)?;
    Ok(Some(Compare::Present { param, holds }))
}

/// A pointer parameter on one side, and null on the other.
fn null_compared(
    scope: &Scope,
    op: CompareOp,
    left: &CoreSize,
    right: &CoreSize,
) -> Result<Option<Compare>, SizeFault>
    ensures is { IfOk result (λ c. option_map plain_comparison c
        ≡ spec.null_compared (meant scope.now) op (plain_size left.now) (plain_size right.now)) }
    ensures memory { IfErr result IsMemory }
{
    if is_null(right) {
        presence(pointer_in(scope, left), says_present(op))
    } else if is_null(left) {
        presence(pointer_in(scope, right), says_present(op))
    } else {
        Ok(None)
    }
}

/// One comparison.
fn one(alloc: Global, comparison: Compare) -> Result<Vec<Compare>, SizeFault>
    ensures is { IfOk result
        (λ them. map plain_comparison them.items ≡ plain_comparison comparison ∷ []) }
    ensures memory { IfErr result IsMemory }
{
    let mut list = Vec::new(alloc);
    list.push(comparison)?;
    Ok(list)
}

/// Two sizes compared.
fn order(alloc: Global, op: CompareOp, left: Size, right: Size) -> Result<Vec<Compare>, SizeFault>
    ensures { GivesCondition (spec.Holds (spec.Order op (plain_line left) (plain_line right) ∷ []))
        result }
{
    one(alloc, Compare::Order { op, left, right })
}

/// A size that is compared with 0.
#[tactic(auto, using(crate::proofs::Answering::nonzero_gives, crate::proofs::Answering::nonzero_fails))]
fn nonzero(alloc: Global, size: Result<Size, SizeFault>) -> Result<Vec<Compare>, SizeFault>
    ensures { (d : Sized) → GivesSum d size → GivesCondition (spec.nonzero d) result }
{
    let zero = Size {
        parts: Vec::new(alloc),
        constant: 0,
    };
    order(alloc, CompareOp::NotEqual, size?, zero)
}

/// Two sizes compared, where both are some.
#[tactic(auto, using(crate::proofs::Answering::ordered_gives, crate::proofs::Answering::ordered_fails, crate::proofs::Answering::ordered_fails_first))]
fn ordered(
    alloc: Global,
    op: CompareOp,
    left: Result<Size, SizeFault>,
    right: Result<Size, SizeFault>,
) -> Result<Vec<Compare>, SizeFault>
    ensures { (d e : Sized) → GivesSum d left → GivesSum e right
        → GivesCondition (spec.ordered op d e) result }
{
    order(alloc, op, left?, right?)
}

/// All comparisons of one list, and then those of another.
fn appended(left: Vec<Compare>, right: Vec<Compare>) -> Result<Vec<Compare>, SizeFault>
    ensures is { IfOk result (λ them. map plain_comparison them.items
        ≡ map plain_comparison left.items ++ map plain_comparison right.items) }
    ensures memory { IfErr result IsMemory }
{
    let mut all = left;
    let mut more = right;
    all.append(&mut more)?;
    Ok(all)
}

/// Two conditions that both have to hold.
#[tactic(auto, using(crate::proofs::Answering::both_gives, crate::proofs::Answering::both_fails, crate::proofs::Answering::both_fails_first))]
fn both(
    left: Result<Vec<Compare>, SizeFault>,
    right: Result<Vec<Compare>, SizeFault>,
) -> Result<Vec<Compare>, SizeFault>
    ensures { (j k : Judged) → GivesCondition j left → GivesCondition k right
        → GivesCondition (spec.both j k) result }
{
    appended(left?, right?)
}

/// One comparison, where there is one, and else a condition.
#[tactic(auto, using(crate::proofs::Answering::one_gives))]
fn one_or(
    alloc: Global,
    comparison: Option<Compare>,
    other: Result<Vec<Compare>, SizeFault>,
) -> Result<Vec<Compare>, SizeFault>
    ensures { (j : Judged) → GivesCondition j other
        → GivesCondition (spec.one_or (option_map plain_comparison comparison) j) result }
{
    match comparison {
        Some(comparison) => one(alloc, comparison),
        None => other,
    }
}

/// A comparison of two trees.
#[tactic(auto, using(crate::proofs::Answering::condition_anywhere))]
fn compared(
    alloc: Global,
    scope: &Scope,
    moment: Moment,
    op: CompareOp,
    left: &CoreSize,
    right: &CoreSize,
) -> Result<Vec<Compare>, SizeFault>
    ensures { GivesCondition (spec.one_or
        (spec.null_compared (meant scope.now) op (plain_size left.now) (plain_size right.now))
        (spec.ordered op (spec.linear (meant scope.now) moment (plain_size left.now))
        (spec.linear (meant scope.now) moment (plain_size right.now)))) result }
{
    if let Some(comparison) = null_compared(scope, op, left, right)? {
        return one(alloc, comparison);
    }
    let left = linear(alloc, scope, moment, left);
    let right = linear(alloc, scope, moment, right);
    ordered(alloc, op, left, right)
}

/// A name: that a pointer parameter is present, or else a number that is compared with 0.
#[tactic(auto, using(crate::proofs::Answering::condition_anywhere))]
fn named(
    alloc: Global,
    scope: &Scope,
    name: Name,
    other: Result<Vec<Compare>, SizeFault>,
) -> Result<Vec<Compare>, SizeFault>
    ensures { (j : Judged) → GivesCondition j other → GivesCondition
        (spec.one_or (spec.presence (scopes.pointer_named (meant scope.now) name) (Some true)) j)
        result }
{
    let comparison = presence(pointer_named(scope, name), Some(true))?;
    one_or(alloc, comparison, other)
}

/// What a condition asks for in a clause of that moment: each of these comparisons. Refused is what is refused of a size;
/// what is compared with null, and is no pointer parameter, is no sum of multiples.
#[tactic(auto, unfolding(crate::specs::Sizes::condition, sb_core::specs::Plain::plain_size))]
pub fn condition(
    alloc: Global,
    scope: &Scope,
    moment: Moment,
    size: &CoreSize,
) -> Result<Vec<Compare>, SizeFault>
    ensures { GivesCondition (spec.condition (meant scope.now) moment (plain_size size.now)) result }
{
    match size {
        CoreSize::Null(place) => Err(not_linear(*place)),
        CoreSize::Other(place) => Err(not_linear(*place)),
        CoreSize::Name(name, _) => {
            let number = nonzero(alloc, linear(alloc, scope, moment, size));
            named(alloc, scope, *name, number)
        }
        CoreSize::Binary {
            op,
            left,
            right,
            ..
        } => match op {
            SizeBinary::Compare(op) => compared(alloc, scope, moment, *op, left, right),
            SizeBinary::And => {
                let left = condition(alloc, scope, moment, left);
                let right = condition(alloc, scope, moment, right);
                both(left, right)
            }
            SizeBinary::Num(_) => nonzero(alloc, linear(alloc, scope, moment, size)),
            SizeBinary::Or => nonzero(alloc, linear(alloc, scope, moment, size)),
        },
        CoreSize::Number(_, _) => nonzero(alloc, linear(alloc, scope, moment, size)),
        CoreSize::Target { .. } => nonzero(alloc, linear(alloc, scope, moment, size)),
        CoreSize::Field { .. } => nonzero(alloc, linear(alloc, scope, moment, size)),
        CoreSize::Result(_) => nonzero(alloc, linear(alloc, scope, moment, size)),
        CoreSize::Old { .. } => nonzero(alloc, linear(alloc, scope, moment, size)),
        CoreSize::Unary { .. } => nonzero(alloc, linear(alloc, scope, moment, size)),
    }
}
