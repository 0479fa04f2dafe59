//! Operators between constants of 128 bits.
ghost use Rattle.std.specs.Prelude.{◌≡◌, ◌≤◌, ◌^◌, pos};
ghost use Rattle.sb_core.specs.declared.operator.NumOp.TheVariants as num;
ghost use Rattle.sb_sum.specs.Lines as line;
ghost use Rattle.sb_linear.specs.Sizes as spec;

use sb_core::{CompareOp, NumOp, SizeBinary};

/// A truth value as a number.
fn truth(holds: bool) -> i128
    ensures { result ≡ spec.truth holds }
{
    if holds { 1 } else { 0 }
}

/// A number that is 0.
fn is_zero(a: i128) -> bool
    ensures { result ≡ line.is_zero a }
{
    a == 0
}

/// By 0 there is no quotient, and none of the least number by -1.
fn has_quotient(a: i128, b: i128) -> bool
    ensures { result ≡ spec.has_quotient a b }
{
    !is_zero(b) && (a > i128::MIN || b < -1 || b > -1)
}

fn quotient(a: i128, b: i128) -> Option<i128>
    ensures { result ≡ spec.held_if (spec.number_of num.Div a b) }
{
    if has_quotient(a, b) {
        Some(a / b)
    } else {
        None
    }
}

fn remainder(a: i128, b: i128) -> Option<i128>
    ensures { result ≡ spec.held_if (spec.number_of num.Rem a b) }
{
    if has_quotient(a, b) {
        Some(a % b)
    } else {
        None
    }
}

/// By 0 to 126 bits.
fn is_count(b: i128) -> bool
    ensures { result ≡ spec.is_count b }
{
    b >= 0 && b < 127
}

/// Two to the power of so many bits.
#[tactic(auto, using(crate::proofs::Powers::power_fits))]
fn power(bits: u32) -> i128
    requires { bits ≤ 126 }
    ensures { result ≡ pos (2 ^ bits) }
{
    1i128 << bits
}

/// A number times a power of two.
fn shifted_left(a: i128, b: i128) -> Option<i128>
    ensures { result ≡ spec.held_if (spec.number_of num.Shl a b) }
{
    if is_count(b) {
        a.checked_mul(power(b as u32))
    } else {
        None
    }
}

fn shifted_right(a: i128, b: i128) -> Option<i128>
    ensures { result ≡ spec.held_if (spec.number_of num.Shr a b) }
{
    if is_count(b) { Some(a >> b) } else { None }
}

/// The number that an operator gives, where it has 128 bits.
fn number_of(op: NumOp, a: i128, b: i128) -> Option<i128>
    ensures { result ≡ spec.held_if (spec.number_of op a b) }
{
    match op {
        NumOp::Add => a.checked_add(b),
        NumOp::Sub => a.checked_sub(b),
        NumOp::Mul => a.checked_mul(b),
        NumOp::Div => quotient(a, b),
        NumOp::Rem => remainder(a, b),
        NumOp::Shl => shifted_left(a, b),
        NumOp::Shr => shifted_right(a, b),
        NumOp::And => Some(a & b),
        NumOp::Xor => Some(a ^ b),
        NumOp::Or => Some(a | b),
    }
}

/// Whether two numbers compare so.
fn compares(op: CompareOp, a: i128, b: i128) -> bool
    ensures { result ≡ spec.compares op a b }
{
    match op {
        CompareOp::Less => a < b,
        CompareOp::AtMost => a <= b,
        CompareOp::Greater => a > b,
        CompareOp::AtLeast => a >= b,
        CompareOp::Equal => a == b,
        CompareOp::NotEqual => a != b,
    }
}

/// The number of an operator between constants, where it has 128 bits.
pub(crate) fn constant_of(op: SizeBinary, a: i128, b: i128) -> Option<i128>
    ensures { result ≡ spec.held_if (spec.constant_of op a b) }
{
    match op {
        SizeBinary::Num(op) => number_of(op, a, b),
        SizeBinary::Compare(op) => Some(truth(compares(op, a, b))),
        SizeBinary::And => Some(truth(!is_zero(a) && !is_zero(b))),
        SizeBinary::Or => Some(truth(!is_zero(a) || !is_zero(b))),
    }
}

/// `!` of a constant.
pub(crate) fn negated(a: i128) -> i128
    ensures { result ≡ spec.truth (line.is_zero a) }
{
    truth(is_zero(a))
}
