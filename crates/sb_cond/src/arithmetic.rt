//! The values of the operators in the condition of `#if` (C99 6.5.3 to 6.5.17): numbers of 64 bits, signed or unsigned.

ghost use Rattle.std.specs.Prelude.{◌≡◌, ◌<◌, Option, Some, None};
ghost use Rattle.sb_cond.specs.Arithmetic as spec;

/// An operator between two operands.
#[derive(Clone, Copy, PartialEq, Eq)]
pub enum Operator {
    Or,
    And,
    BitOr,
    BitXor,
    BitAnd,
    Equal,
    NotEqual,
    Less,
    Greater,
    AtMost,
    AtLeast,
    ShiftLeft,
    ShiftRight,
    Add,
    Subtract,
    Multiply,
    Divide,
    Remainder,
}

/// An operator before its operand.
#[derive(Clone, Copy, PartialEq, Eq)]
pub enum Prefix {
    Plus,
    Minus,
    Complement,
    Not,
}

/// What an expression comes to: its type, `unsigned long long` or `long long`, and its value of 64 bits in two's
/// complement, or the position in the line of the operator that has none.
#[derive(Clone, Copy, PartialEq, Eq)]
pub struct Operand {
    pub unsigned: bool,
    pub value: Result<u64, u32>,
}

fn truth(holds: bool) -> u64
    ensures truth { result ≡ spec.truth holds }
{
    if holds { 1 } else { 0 }
}

fn is_below(unsigned: bool, x: u64, y: u64) -> bool
    ensures below { result ≡ spec.is_below unsigned x y }
{
    if unsigned {
        x < y
    } else {
        x.cast_signed() < y.cast_signed()
    }
}

/// The quotient, towards zero; that of the least number by -1 wraps.
fn quotient(unsigned: bool, x: u64, y: u64) -> u64
    requires divisor { 0 < y }
    ensures quotient { result ≡ spec.quotient unsigned x y }
{
    if unsigned {
        x / y
    } else {
        x.cast_signed()
            .wrapping_div(y.cast_signed())
            .cast_unsigned()
    }
}

fn remainder(unsigned: bool, x: u64, y: u64) -> u64
    requires divisor { 0 < y }
    ensures remainder { result ≡ spec.remainder unsigned x y }
{
    if unsigned {
        x % y
    } else {
        x.cast_signed()
            .wrapping_rem(y.cast_signed())
            .cast_unsigned()
    }
}

/// A shift to the right, which keeps the sign of a signed number.
fn shift_right(unsigned: bool, x: u64, y: u64) -> u64
    requires count { y < 64 }
    ensures shifted { result ≡ spec.shift_right unsigned x y }
{
    if unsigned {
        x >> y
    } else {
        (x.cast_signed() >> y).cast_unsigned()
    }
}

/// The value of an operator whose operands have the values `x` and `y`, computed in one type; None where it has none.
fn binary_value(unsigned: bool, operator: Operator, x: u64, y: u64) -> Option<u64>
    ensures value { result ≡ spec.binary_value unsigned operator x y }
{
    match operator {
        Operator::Or => Some(truth(x != 0 || y != 0)),
        Operator::And => Some(truth(x != 0 && y != 0)),
        Operator::BitOr => Some(x | y),
        Operator::BitXor => Some(x ^ y),
        Operator::BitAnd => Some(x & y),
        Operator::Equal => Some(truth(x == y)),
        Operator::NotEqual => Some(truth(x != y)),
        Operator::Less => Some(truth(is_below(unsigned, x, y))),
        Operator::Greater => Some(truth(is_below(unsigned, y, x))),
        Operator::AtMost => Some(truth(!is_below(unsigned, y, x))),
        Operator::AtLeast => Some(truth(!is_below(unsigned, x, y))),
        Operator::ShiftLeft if y < 64 => Some(x << y),
        Operator::ShiftRight if y < 64 => Some(shift_right(unsigned, x, y)),
        Operator::Add => Some(x.wrapping_add(y)),
        Operator::Subtract => Some(x.wrapping_sub(y)),
        Operator::Multiply => Some(x.wrapping_mul(y)),
        Operator::Divide if y != 0 => Some(quotient(unsigned, x, y)),
        Operator::Remainder if y != 0 => Some(remainder(unsigned, x, y)),
        Operator::ShiftLeft | Operator::ShiftRight | Operator::Divide | Operator::Remainder => None,
    }
}

fn is_test(operator: Operator) -> bool
    ensures test { result ≡ spec.is_test operator }
{
    matches!(
        operator,
        Operator::Or
            | Operator::And
            | Operator::Equal
            | Operator::NotEqual
            | Operator::Less
            | Operator::Greater
            | Operator::AtMost
            | Operator::AtLeast
    )
}

fn common_type(operator: Operator, a: Operand, b: Operand) -> bool
    ensures unsigned { result ≡ spec.common_type operator a b }
{
    match operator {
        Operator::ShiftLeft | Operator::ShiftRight => a.unsigned,
        _ => a.unsigned || b.unsigned,
    }
}

/// Whether the left operand decides alone, so that the right one is not evaluated.
fn decides(operator: Operator, x: u64) -> bool
    ensures decides { result ≡ spec.decides operator x }
{
    match operator {
        Operator::Or => x != 0,
        Operator::And => x == 0,
        _ => false,
    }
}

fn with_right(
    at: u32,
    unsigned: bool,
    operator: Operator,
    x: u64,
    y: Result<u64, u32>,
) -> Result<u64, u32>
    ensures value { result ≡ spec.with_right at unsigned operator x y }
{
    match y {
        Ok(y) => binary_value(unsigned, operator, x, y).ok_or(at),
        Err(other) => Err(other),
    }
}

/// What a binary operator gives that stands at a position of the line.
pub(crate) fn binary(at: u32, operator: Operator, a: Operand, b: Operand) -> Operand
    ensures operand { result ≡ spec.binary at operator a b }
{
    let unsigned = common_type(operator, a, b);
    let value = match a.value {
        Ok(x) if decides(operator, x) => Ok(truth(x != 0)),
        Ok(x) => with_right(at, unsigned, operator, x, b.value),
        Err(other) => Err(other),
    };
    Operand {
        unsigned: !is_test(operator) && unsigned,
        value,
    }
}

fn unary_value(prefix: Prefix, x: u64) -> u64
    ensures value { result ≡ spec.unary_value prefix x }
{
    match prefix {
        Prefix::Plus => x,
        Prefix::Minus => 0u64.wrapping_sub(x),
        Prefix::Complement => !x,
        Prefix::Not => truth(x == 0),
    }
}

/// What an operator before its operand gives.
pub(crate) fn unary(prefix: Prefix, a: Operand) -> Operand
    ensures operand { result ≡ spec.unary prefix a }
{
    Operand {
        unsigned: prefix != Prefix::Not && a.unsigned,
        value: a.value.map(|x| unary_value(prefix, x)),
    }
}

/// What `a ? b : c` gives: the value of one branch, in the common type of both.
pub(crate) fn selected(a: Operand, b: Operand, c: Operand) -> Operand
    ensures operand { result ≡ spec.selected a b c }
{
    Operand {
        unsigned: b.unsigned || c.unsigned,
        value: match a.value {
            Ok(0) => c.value,
            Ok(_) => b.value,
            Err(at) => Err(at),
        },
    }
}

/// What the comma operator gives, which has no value where it is evaluated (C99 6.6 paragraph 3).
pub(crate) fn in_sequence(at: u32, a: Operand, b: Operand) -> Operand
    ensures operand { result ≡ spec.in_sequence at a b }
{
    Operand {
        unsigned: b.unsigned,
        value: match a.value {
            Ok(_) => Err(at),
            Err(other) => Err(other),
        },
    }
}

/// The first operator without a value in what was read: in the left operand, or else behind it where that is evaluated.
pub(crate) fn fault_behind(operator: Operator, a: Operand, right: Option<u32>) -> Option<u32>
    ensures fault { result ≡ spec.fault_behind operator a.value right }
{
    match a.value {
        Ok(x) if decides(operator, x) => None,
        Ok(_) => right,
        Err(at) => Some(at),
    }
}

/// The same of `a ? b : c`: in the condition, or else in the branch that is taken.
pub(crate) fn fault_selected(a: Operand, first: Option<u32>, second: Option<u32>) -> Option<u32>
    ensures fault { result ≡ spec.fault_selected a.value first second }
{
    match a.value {
        Ok(0) => second,
        Ok(_) => first,
        Err(at) => Some(at),
    }
}

/// The operator without a value in what was read.
pub(crate) fn fault_of(a: Operand) -> Option<u32>
    ensures fault { result ≡ spec.fault_of a.value }
{
    match a.value {
        Ok(_) => None,
        Err(at) => Some(at),
    }
}

/// The first operator without a value in what was read up to a comma: before it, or the comma.
pub(crate) fn fault_in_sequence(at: u32, a: Operand) -> Option<u32>
    ensures fault { result ≡ spec.fault_of (spec.none_at at a.value) }
{
    match a.value {
        Ok(_) => Some(at),
        Err(other) => Some(other),
    }
}
