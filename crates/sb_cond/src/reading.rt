//! The steps that the readers of conditions are made of.

ghost use Rattle.std.specs.Prelude.{◌≡◌, ◌+◌, suc, Option, None};
ghost use Rattle.sb_parse.specs.Parser.{taken, taken_as, token, at_next};
ghost use Rattle.sb_cond.specs.Arithmetic.{fault_of};
ghost use Rattle.sb_cond.specs.Expression as spec;
ghost use Rattle.sb_cond.specs.Readers.{number_of, number_behind, number_first, number_second, number_in_sequence, is_prefix, is_operator, is_comma};
ghost use Rattle.sb_cond.specs.Reads.{Reads};

use crate::arithmetic::{
    Operand, Operator, Prefix, fault_behind, fault_in_sequence, fault_of, fault_selected,
};
use crate::sign::{ConditionToken, Mark, Sign};

/// What was read, and the tokens after it.
#[derive(Clone, Copy)]
pub struct Read<'a, T> {
    pub value: T,
    pub rest: &'a [ConditionToken],
}

/// Why a line was not read: no expression goes on so from where this many tokens are left, 0 at the end.
///
/// `fault` is the position of the first operator before that place that is evaluated and has no value.
#[derive(Clone, Copy)]
pub struct Stopped {
    pub fault: Option<u32>,
    pub left: usize,
}

impl Stopped {
    /// Where the stop came behind a left operand and its operator.
    pub(crate) fn behind(self, operator: Operator, a: Operand) -> Stopped
        ensures fault { number_of result.fault ≡ number_behind operator a (number_of self.fault) }
        ensures left { result.left ≡ self.left }
    {
        Stopped {
            fault: fault_behind(operator, a, self.fault),
            left: self.left,
        }
    }

    /// Where it came in the first branch of `?:`.
    pub(crate) fn in_first(self, a: Operand) -> Stopped
        ensures fault { number_of result.fault ≡ number_first a (number_of self.fault) }
        ensures left { result.left ≡ self.left }
    {
        Stopped {
            fault: fault_selected(a, self.fault, None),
            left: self.left,
        }
    }

    /// Where it came in the second branch of `?:`.
    pub(crate) fn in_second(self, a: Operand, b: Operand) -> Stopped
        ensures fault { number_of result.fault ≡ number_second a b (number_of self.fault) }
        ensures left { result.left ≡ self.left }
    {
        Stopped {
            fault: fault_selected(a, fault_of(b), self.fault),
            left: self.left,
        }
    }

    /// Where it came behind a comma.
    pub(crate) fn behind_comma(self, at: u32, a: Operand) -> Stopped
        ensures fault { number_of result.fault ≡ number_in_sequence at a (number_of self.fault) }
        ensures left { result.left ≡ self.left }
    {
        Stopped {
            fault: fault_in_sequence(at, a),
            left: self.left,
        }
    }
}

/// The number that a token is.
fn operand_at(token: ConditionToken) -> Option<Operand>
    ensures operand { result ≡ spec.operand_of token }
{
    match token.sign {
        Sign::Number { bits, unsigned } => Some(Operand {
            unsigned,
            value: Ok(bits),
        }),
        _ => None,
    }
}

fn prefix_at(token: ConditionToken) -> Option<Prefix>
    ensures prefix { result ≡ spec.prefix_of token }
{
    match token.sign {
        Sign::Binary(Operator::Add) => Some(Prefix::Plus),
        Sign::Binary(Operator::Subtract) => Some(Prefix::Minus),
        Sign::Complement => Some(Prefix::Complement),
        Sign::Not => Some(Prefix::Not),
        _ => None,
    }
}

/// How loosely an operator binds: 1 for `*`, 10 for `||` (C99 6.5.5 to 6.5.14).
fn rank(operator: Operator) -> u8
    ensures rank { result ≡ spec.rank operator }
{
    match operator {
        Operator::Multiply | Operator::Divide | Operator::Remainder => 1,
        Operator::Add | Operator::Subtract => 2,
        Operator::ShiftLeft | Operator::ShiftRight => 3,
        Operator::Less | Operator::Greater | Operator::AtMost | Operator::AtLeast => 4,
        Operator::Equal | Operator::NotEqual => 5,
        Operator::BitAnd => 6,
        Operator::BitXor => 7,
        Operator::BitOr => 8,
        Operator::And => 9,
        Operator::Or => 10,
    }
}

/// The operator of a rank that a token is, and its position.
fn operator_at(of_rank: u8, token: ConditionToken) -> Option<(Operator, u32)>
    ensures operator { result ≡ spec.operator_of of_rank token }
{
    match token.sign {
        Sign::Binary(operator) if rank(operator) == of_rank => Some((operator, token.at)),
        _ => None,
    }
}

fn comma_at(token: ConditionToken) -> Option<u32>
    ensures comma { result ≡ spec.comma_of token }
{
    match token.sign {
        Sign::Comma => Some(token.at),
        _ => None,
    }
}

fn is_marked(mark: Mark, token: ConditionToken) -> bool
    ensures marked { result ≡ spec.is_marked mark token }
{
    matches!(
        (mark, token.sign),
        (Mark::Open, Sign::Open)
            | (Mark::Close, Sign::Close)
            | (Mark::Question, Sign::Question)
            | (Mark::Colon, Sign::Colon)
    )
}

pub(crate) fn is_mark_next(mark: Mark, tokens: &[ConditionToken]) -> bool
    ensures next { result ≡ at_next (spec.is_marked mark) tokens.now }
{
    match tokens.split_first() {
        Some((token, _rest)) => is_marked(mark, *token),
        None => false,
    }
}

pub(crate) fn is_prefix_next(tokens: &[ConditionToken]) -> bool
    ensures next { result ≡ at_next is_prefix tokens.now }
{
    match tokens.split_first() {
        Some((token, _rest)) => prefix_at(*token).is_some(),
        None => false,
    }
}

pub(crate) fn is_operator_next(of_rank: u8, tokens: &[ConditionToken]) -> bool
    ensures next { result ≡ at_next (is_operator of_rank) tokens.now }
{
    match tokens.split_first() {
        Some((token, _rest)) => operator_at(of_rank, *token).is_some(),
        None => false,
    }
}

pub(crate) fn is_comma_next(tokens: &[ConditionToken]) -> bool
    ensures next { result ≡ at_next is_comma tokens.now }
{
    match tokens.split_first() {
        Some((token, _rest)) => comma_at(*token).is_some(),
        None => false,
    }
}

/// The value of the token before `rest`, which has to have one.
fn read_value<'a, T>(value: Option<T>, rest: &'a [ConditionToken]) -> Result<Read<'a, T>, Stopped>
    ensures read { Reads (taken_as 0 value rest.now) result }
{
    match value {
        Some(value) => Ok(Read { value, rest }),
        None => Err(Stopped {
            fault: None,
            left: rest.len() + 1,
        }),
    }
}

pub(crate) fn take_operand<'a>(tokens: &'a [ConditionToken]) -> Result<Read<'a, Operand>, Stopped>
    ensures read { Reads (taken 0 spec.operand_of tokens.now) result }
{
    match tokens.split_first() {
        Some((token, rest)) => read_value(operand_at(*token), rest),
        None => Err(Stopped {
            fault: None,
            left: 0,
        }),
    }
}

pub(crate) fn take_prefix<'a>(tokens: &'a [ConditionToken]) -> Result<Read<'a, Prefix>, Stopped>
    ensures read { Reads (taken 0 spec.prefix_of tokens.now) result }
{
    match tokens.split_first() {
        Some((token, rest)) => read_value(prefix_at(*token), rest),
        None => Err(Stopped {
            fault: None,
            left: 0,
        }),
    }
}

pub(crate) fn take_operator<'a>(
    of_rank: u8,
    tokens: &'a [ConditionToken],
) -> Result<Read<'a, (Operator, u32)>, Stopped>
    ensures read { Reads (taken 0 (spec.operator_of of_rank) tokens.now) result }
{
    match tokens.split_first() {
        Some((token, rest)) => read_value(operator_at(of_rank, *token), rest),
        None => Err(Stopped {
            fault: None,
            left: 0,
        }),
    }
}

pub(crate) fn take_comma<'a>(tokens: &'a [ConditionToken]) -> Result<Read<'a, u32>, Stopped>
    ensures read { Reads (taken 0 spec.comma_of tokens.now) result }
{
    match tokens.split_first() {
        Some((token, rest)) => read_value(comma_at(*token), rest),
        None => Err(Stopped {
            fault: None,
            left: 0,
        }),
    }
}

/// The next token, which has to be this one, behind expressions with this fault.
pub(crate) fn take_mark<'a>(
    mark: Mark,
    fault: Option<u32>,
    tokens: &'a [ConditionToken],
) -> Result<Read<'a, ConditionToken>, Stopped>
    ensures read { Reads (token (number_of fault) (spec.is_marked mark) tokens.now) result }
{
    match tokens.split_first() {
        Some((token, rest)) if is_marked(mark, *token) => Ok(Read {
            value: *token,
            rest,
        }),
        _ => Err(Stopped {
            fault,
            left: tokens.len(),
        }),
    }
}
