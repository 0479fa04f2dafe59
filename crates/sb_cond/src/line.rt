//! Whether the condition of `#if` and `#elif` holds (C99 6.10.1).

ghost use Rattle.std.specs.Prelude.{◌≡◌, ◌-◌, ◌^◌, ◌<◌, false, IfOk, IfErr, Bool, length, slice_get, unwrap_or};
ghost use Rattle.sb_cond.specs.Condition as spec;
ghost use Rattle.sb_lex.specs.Values.{number_of};
ghost use Rattle.sb_cond.specs.Readers.{below, sequence};

use crate::arithmetic::{Operand, Operator};
use crate::expression::sequence;
use crate::reading::Read;
use crate::sign::{ConditionToken, Sign};
use sb_base::{Names, Place, PpKind, Refusal, Stop};
use sb_lex::{PpToken, character_value, number_value};
use std::alloc::{AllocError, Global};

/// The position at which a line is refused: that of an operator without a value, or else that of the token at which
/// no expression goes on so, behind the last one where all are read.
pub(crate) fn refusal_at(fault: Option<u32>, count: usize, left: usize) -> usize
    ensures at { result ≡ unwrap_or fault (count - left) }
{
    match fault {
        Some(at) => at as usize,
        None => count.saturating_sub(left),
    }
}

fn truth_of(read: Read<Operand>, count: usize) -> Result<bool, usize>
    ensures truth { result ≡ spec.truth_of read.entry.value.value read.entry.rest.now count }
{
    match read.value.value {
        Err(at) => Err(at as usize),
        Ok(value) if read.rest.is_empty() => Ok(value != 0),
        Ok(_) => Err(refusal_at(None, count, read.rest.len())),
    }
}

/// Whether a condition holds. An error is the position of the token at which it is refused, behind the last one where
/// it ends too early.
fn judge(tokens: &[ConditionToken]) -> Result<bool, usize>
    ensures holds { IfOk result (spec.HasTruth tokens.now) }
    ensures refused { IfErr result (spec.IsRefusedAt tokens.now) }
{
    match sequence(tokens, 200) {
        Ok(read) => truth_of(read, tokens.len()),
        Err(stop) => Err(refusal_at(stop.fault, tokens.len(), stop.left)),
    }
}

/// The sign of a punctuator by its spelling (C99 6.4.6).
fn punctuator_sign(text: &[u8]) -> Sign
    ensures sign { result ≡ spec.punctuator_sign text.now }
{
    match text {
        b"(" => Sign::Open,
        b")" => Sign::Close,
        b"?" => Sign::Question,
        b":" => Sign::Colon,
        b"," => Sign::Comma,
        b"~" => Sign::Complement,
        b"!" => Sign::Not,
        b"||" => Sign::Binary(Operator::Or),
        b"&&" => Sign::Binary(Operator::And),
        b"|" => Sign::Binary(Operator::BitOr),
        b"^" => Sign::Binary(Operator::BitXor),
        b"&" => Sign::Binary(Operator::BitAnd),
        b"==" => Sign::Binary(Operator::Equal),
        b"!=" => Sign::Binary(Operator::NotEqual),
        b"<" => Sign::Binary(Operator::Less),
        b">" => Sign::Binary(Operator::Greater),
        b"<=" => Sign::Binary(Operator::AtMost),
        b">=" => Sign::Binary(Operator::AtLeast),
        b"<<" => Sign::Binary(Operator::ShiftLeft),
        b">>" => Sign::Binary(Operator::ShiftRight),
        b"+" => Sign::Binary(Operator::Add),
        b"-" => Sign::Binary(Operator::Subtract),
        b"*" => Sign::Binary(Operator::Multiply),
        b"/" => Sign::Binary(Operator::Divide),
        b"%" => Sign::Binary(Operator::Remainder),
        _ => Sign::Other,
    }
}

/// Whether an integer constant has a suffix `u` or `U`: no digit is written so.
fn has_unsigned_suffix(text: &[u8]) -> bool
    ensures suffix { result ≡ spec.has_unsigned_suffix text.now }
{
    text.iter().any(|byte| *byte == b'u' || *byte == b'U')
}

fn number_sign(text: &[u8]) -> Sign
    ensures sign { result ≡ spec.number_sign text.now (number_of text.now) }
{
    match number_value(text) {
        Some(bits) => Sign::Number {
            bits,
            unsigned: has_unsigned_suffix(text) || bits >= 1 << 63,
        },
        None => Sign::Other,
    }
}

fn character_sign(text: &[u8]) -> Sign
    ensures sign { spec.IsCharacterSign text.now result }
{
    match character_value(text) {
        Some(bits) => Sign::Number {
            bits,
            unsigned: false,
        },
        None => Sign::Other,
    }
}

/// What a piece is in a condition. A name that is left is 0 (C99 6.10.1 paragraph 4).
fn sign_of(kind: PpKind, text: &[u8]) -> Sign
    ensures sign { spec.HasSign kind text.now result }
{
    match kind {
        PpKind::Word => Sign::Number {
            bits: 0,
            unsigned: false,
        },
        PpKind::Number => number_sign(text),
        PpKind::Char => character_sign(text),
        PpKind::Punct => punctuator_sign(text),
        PpKind::Text | PpKind::Header => Sign::Other,
    }
}

fn sign_in(names: &Names, piece: &PpToken) -> Sign
    ensures sign { spec.HasSignIn piece.now.kind (slice_get names.now.texts piece.now.text.0)
        result }
{
    match names.text(piece.text) {
        Some(text) => sign_of(piece.kind, text),
        None => Sign::Other,
    }
}

pub(crate) fn tokens_of(
    alloc: Global,
    names: &Names,
    line: &[PpToken],
) -> Result<Vec<ConditionToken>, AllocError>
    requires count { length line.now < 2 ^ 32 }
    ensures tokens { IfOk result (λ tokens. spec.AreTokens names.now.texts line.now tokens.items) }
{
    let mut tokens = Vec::new(alloc);
    for (index, piece) in line.iter().enumerate() {
        tokens.push(ConditionToken {
            sign: sign_in(names, piece),
            at: index as u32,
        })?;
    }
    Ok(tokens)
}

/// Whether the condition of an `#if` or `#elif` line holds (C99 6.10.1, 6.6), by the pieces behind that word once macros
/// and `defined` are replaced: `&&`, `||` and `?:` leave out what they do not evaluate, the arithmetic is of 64 bits,
/// signed or unsigned, and what overflows wraps.
///
/// Refused as 26 where the pieces are no expression, at the first piece with which none goes on so, or at `end` where they
/// end too early, and at an operator that is evaluated and has no value, whichever comes first.
/// Parentheses, operators before an operand and `?:` may be nested 200 deep, so that the stack is never the limit: a
/// piece that would bring one level more is refused as one with which no expression goes on.
pub fn condition(alloc: Global, names: &Names, line: &[PpToken], end: Place) -> Result<bool, Stop>
    requires count { length line.now < 2 ^ 32 }
    ensures holds { IfOk result (spec.LineHolds names.now.texts line.now) }
    ensures fault { IfErr result (spec.IsLineFault names.now.texts line.now end) }
    ensures only { (holds : Bool) → spec.LineHolds names.now.texts line.now holds
        → spec.IsAnswer holds result }
    ensures only_refused { (refusal : Refusal) → spec.LineRefused names.now.texts line.now end
        refusal → spec.IsRefusal refusal result }
{
    let Ok(tokens) = tokens_of(alloc, names, line) else {
        return Err(Stop::Memory);
    };
    match judge(tokens.as_slice()) {
        Ok(holds) => Ok(holds),
        Err(at) => Err(Stop::Refused(Refusal {
            number: 26,
            place: place_in(line, end, at),
            feature: 0,
        })),
    }
}

pub(crate) fn place_in(line: &[PpToken], end: Place, at: usize) -> Place
    ensures place { result ≡ spec.place_in line.now end at }
{
    match line.get(at) {
        Some(piece) => piece.place,
        None => end,
    }
}
