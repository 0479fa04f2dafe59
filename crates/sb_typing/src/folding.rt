//! The values of constant expressions (C99 6.6).
ghost use Rattle.std.specs.Prelude.{◌≡◌, IfSome, Some};
ghost use Rattle.sb_core.specs.Plain.{plain_expression};
ghost use Rattle.sb_typing.specs.Numbers.{IsHeld};
ghost use Rattle.sb_typing.specs.Values.{wrapped as wrapped_in};
ghost use Rattle.sb_typing.specs.Folding as spec;
ghost use Rattle.sb_typing.specs.Folding.{IsWide};

use crate::numbers::bits_of;
use crate::values::{converted, truth, wrapped};
use sb_core::{CompareOp, CoreExpr, NumOp, SignOp, TypeId};

/// Whether a type has more bits than that count, which is not negative (6.5.7).
fn is_count(t: TypeId, count: i128) -> bool
    ensures { result ≡ spec.is_count t count }
{
    count >= 0 && count < i128::from(bits_of(t))
}

/// A quotient (6.5.5).
fn quotient(t: TypeId, a: i128, b: i128) -> Option<i128>
    requires left { IsWide a }
    ensures gives { result ≡ spec.quotient t a b }
    ensures held { IfSome result (IsHeld t) }
{
    if b == 0 {
        None
    } else {
        Some(wrapped(t, a / b))
    }
}

/// A remainder (6.5.5).
fn remainder(t: TypeId, a: i128, b: i128) -> Option<i128>
    requires left { IsWide a }
    ensures gives { result ≡ spec.remainder t a b }
    ensures held { IfSome result (IsHeld t) }
{
    if b == 0 {
        None
    } else {
        Some(wrapped(t, a % b))
    }
}

/// A number shifted to the left (6.5.7).
fn shifted_left(t: TypeId, a: i128, b: i128) -> Option<i128>
    ensures gives { result ≡ spec.shifted_left t a b }
    ensures held { IfSome result (IsHeld t) }
{
    if is_count(t, b) {
        Some(wrapped(t, a << b))
    } else {
        None
    }
}

/// A number shifted to the right (6.5.7).
fn shifted_right(t: TypeId, a: i128, b: i128) -> Option<i128>
    ensures gives { result ≡ spec.shifted_right t a b }
    ensures held { IfSome result (IsHeld t) }
{
    if is_count(t, b) {
        Some(wrapped(t, a >> b))
    } else {
        None
    }
}

/// An operator on two operands in a type.
fn binary_value(op: NumOp, t: TypeId, a: i128, b: i128) -> Option<i128>
    requires left { IsWide a }
    requires right { IsWide b }
    ensures gives { result ≡ spec.binary_value op t a b }
    ensures held { IfSome result (IsHeld t) }
{
    match op {
        NumOp::Add => Some(wrapped(t, a + b)),
        NumOp::Sub => Some(wrapped(t, a - b)),
        NumOp::Mul => Some(wrapped(t, a.wrapping_mul(b))),
        NumOp::Div => quotient(t, a, b),
        NumOp::Rem => remainder(t, a, b),
        NumOp::Shl => shifted_left(t, a, b),
        NumOp::Shr => shifted_right(t, a, b),
        NumOp::And => Some(wrapped(t, a & b)),
        NumOp::Xor => Some(wrapped(t, a ^ b)),
        NumOp::Or => Some(wrapped(t, a | b)),
    }
}

/// `-` and `~` of an operand in a type (6.5.3.3).
fn sign_value(op: SignOp, t: TypeId, a: i128) -> i128
    requires operand { IsWide a }
    ensures gives { result ≡ spec.sign_value op t a }
    ensures held { IsHeld t result }
{
    match op {
        SignOp::Minus => wrapped(t, -a),
        SignOp::Invert => wrapped(t, !a),
    }
}

/// Whether two numbers compare so (6.5.8, 6.5.9).
fn compares(op: CompareOp, a: i128, b: i128) -> bool
    ensures { result ≡ spec.compares op a b }
{
    match op {
        CompareOp::Less => a < b,
        CompareOp::AtMost => a <= b,
        CompareOp::Greater => a > b,
        CompareOp::AtLeast => a >= b,
        CompareOp::Equal => a == b,
        CompareOp::NotEqual => a != b,
    }
}

/// A number of a type.
#[tactic(auto, using(crate::proofs::Conversions::wide))]
fn leaf(t: TypeId, value: i128) -> Option<i128>
    ensures gives { result ≡ Some (wrapped_in t value) }
    ensures wide { IfSome result IsWide }
{
    Some(wrapped(t, value))
}

/// `-` or `~` of an operand that may have a value.
#[tactic(auto, using(crate::proofs::Conversions::wide))]
fn signed(op: SignOp, t: TypeId, operand: Option<i128>) -> Option<i128>
    requires operand { IfSome operand IsWide }
    ensures gives { result ≡ spec.signed op t operand }
    ensures wide { IfSome result IsWide }
{
    let a = operand?;
    Some(sign_value(op, t, a))
}

/// An operator on two operands that may have values.
#[tactic(auto, using(crate::proofs::Conversions::wide))]
fn joined(op: NumOp, t: TypeId, left: Option<i128>, right: Option<i128>) -> Option<i128>
    requires left { IfSome left IsWide }
    requires right { IfSome right IsWide }
    ensures gives { result ≡ spec.joined op t left right }
    ensures wide { IfSome result IsWide }
{
    let a = left?;
    let b = right?;
    binary_value(op, t, a, b)
}

/// An operand that may have a value, in another type.
#[tactic(auto, using(crate::proofs::Conversions::wide))]
fn cast(t: TypeId, operand: Option<i128>) -> Option<i128>
    ensures gives { result ≡ spec.cast t operand }
    ensures wide { IfSome result IsWide }
{
    let a = operand?;
    Some(converted(t, a))
}

/// Two operands compared.
#[tactic(auto, using(crate::proofs::Conversions::wide))]
fn compared(op: CompareOp, left: Option<i128>, right: Option<i128>) -> Option<i128>
    ensures gives { result ≡ spec.compared op left right }
    ensures wide { IfSome result IsWide }
{
    let a = left?;
    let b = right?;
    Some(truth(compares(op, a, b)))
}

/// `!` of an operand.
#[tactic(auto, using(crate::proofs::Conversions::wide))]
fn negated(operand: Option<i128>) -> Option<i128>
    ensures gives { result ≡ spec.negated operand }
    ensures wide { IfSome result IsWide }
{
    let a = operand?;
    Some(truth(a == 0))
}

/// `&&` of two operands.
#[tactic(auto, using(crate::proofs::Conversions::wide))]
fn conjunction(left: Option<i128>, right: Option<i128>) -> Option<i128>
    ensures gives { result ≡ spec.conjunction left right }
    ensures wide { IfSome result IsWide }
{
    let a = left?;
    let b = right?;
    Some(truth(a != 0 && b != 0))
}

/// `||` of two operands.
#[tactic(auto, using(crate::proofs::Conversions::wide))]
fn disjunction(left: Option<i128>, right: Option<i128>) -> Option<i128>
    ensures gives { result ≡ spec.disjunction left right }
    ensures wide { IfSome result IsWide }
{
    let a = left?;
    let b = right?;
    Some(truth(a != 0 || b != 0))
}

/// One of two operands.
#[tactic(auto, using(crate::proofs::Conversions::wide))]
fn chosen(test: Option<i128>, yes: Option<i128>, no: Option<i128>) -> Option<i128>
    requires yes { IfSome yes IsWide }
    requires no { IfSome no IsWide }
    ensures gives { result ≡ spec.chosen test yes no }
    ensures wide { IfSome result IsWide }
{
    let a = test?;
    let b = yes?;
    let c = no?;
    Some(if a == 0 { c } else { b })
}

/// The value of a constant expression, and none of another: each operand has to be one.
#[tactic(auto, unfolding(crate::specs::Folding::value_of, sb_core::specs::Plain::plain_expression))]
pub fn constant_value(e: &CoreExpr) -> Option<i128>
    ensures gives { result ≡ spec.value_of (plain_expression e.now) }
    ensures wide { IfSome result IsWide }
{
    match e {
        CoreExpr::Number(value, t) => leaf(*t, *value),
        CoreExpr::Unary { op, of, kind } => signed(*op, *kind, constant_value(of)),
        CoreExpr::Binary {
            op,
            left,
            right,
            kind,
            ..
        } => joined(*op, *kind, constant_value(left), constant_value(right)),
        CoreExpr::Convert { of, kind } => cast(*kind, constant_value(of)),
        CoreExpr::Compare { op, left, right } => {
            compared(*op, constant_value(left), constant_value(right))
        }
        CoreExpr::Not(of) => negated(constant_value(of)),
        CoreExpr::And(left, right) => conjunction(constant_value(left), constant_value(right)),
        CoreExpr::Or(left, right) => disjunction(constant_value(left), constant_value(right)),
        CoreExpr::Choose { test, yes, no } => chosen(
            constant_value(test),
            constant_value(yes),
            constant_value(no),
        ),
        CoreExpr::Null
        | CoreExpr::Local { .. }
        | CoreExpr::At(_)
        | CoreExpr::Load { .. }
        | CoreExpr::Move { .. }
        | CoreExpr::Distance { .. } => None,
    }
}
