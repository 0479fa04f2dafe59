//! Operators and what stands behind an operand, as tokens give them (C99 6.5).
ghost use Rattle.std.specs.Prelude.{◌≡◌, ◌<◌, suc, is_some};
ghost use Rattle.sb_parse.specs.Parser.{at_next, taken};
ghost use Rattle.sb_lexicon.specs.Lexicon as spec;
ghost use Rattle.sb_lexicon.specs.Meaning.{meant, Gives};
ghost use Rattle.sb_lexicon.specs.Tokens as reader;

use crate::lexicon::Lexicon;
use crate::reading::{Read, ReadFault, take};
use sb_base::{Place, Token};
use sb_sign::{Mark, mark_of};
use sb_tree::{BinaryOp, UnaryOp};

/// A token that goes on from an operand.
#[derive(Clone, Copy)]
pub enum Suffix {
    /// `[`
    Index(Place),
    /// `(`
    Call(Place),
    /// `.` or, where `arrow` says so, `->`
    Member { arrow: bool, place: Place },
    /// `++` or `--`
    Step(UnaryOp, Place),
}

/// How loosely an operator binds: 1 for `*`, 10 for `||`, 11 for a comma (6.5.5 to 6.5.17).
fn rank(op: BinaryOp) -> u8
    ensures { result ≡ spec.rank op }
{
    match op {
        BinaryOp::Mul | BinaryOp::Div | BinaryOp::Rem => 1,
        BinaryOp::Add | BinaryOp::Sub => 2,
        BinaryOp::Shl | BinaryOp::Shr => 3,
        BinaryOp::Less | BinaryOp::AtMost | BinaryOp::Greater | BinaryOp::AtLeast => 4,
        BinaryOp::Equal | BinaryOp::NotEqual => 5,
        BinaryOp::BitAnd => 6,
        BinaryOp::BitXor => 7,
        BinaryOp::BitOr => 8,
        BinaryOp::And => 9,
        BinaryOp::Or => 10,
        BinaryOp::Comma => 11,
    }
}

/// The operator between two operands that a mark is.
pub fn binary_at(mark: Mark) -> Option<BinaryOp>
    ensures { result ≡ spec.binary_at mark }
{
    match mark {
        Mark::Star => Some(BinaryOp::Mul),
        Mark::Slash => Some(BinaryOp::Div),
        Mark::Percent => Some(BinaryOp::Rem),
        Mark::Plus => Some(BinaryOp::Add),
        Mark::Minus => Some(BinaryOp::Sub),
        Mark::ShiftLeft => Some(BinaryOp::Shl),
        Mark::ShiftRight => Some(BinaryOp::Shr),
        Mark::Less => Some(BinaryOp::Less),
        Mark::AtMost => Some(BinaryOp::AtMost),
        Mark::Greater => Some(BinaryOp::Greater),
        Mark::AtLeast => Some(BinaryOp::AtLeast),
        Mark::Equal => Some(BinaryOp::Equal),
        Mark::NotEqual => Some(BinaryOp::NotEqual),
        Mark::Ampersand => Some(BinaryOp::BitAnd),
        Mark::Caret => Some(BinaryOp::BitXor),
        Mark::Bar => Some(BinaryOp::BitOr),
        Mark::And => Some(BinaryOp::And),
        Mark::Or => Some(BinaryOp::Or),
        Mark::Comma => Some(BinaryOp::Comma),
        _ => None,
    }
}

/// Before an operand (6.5.3.2, 6.5.3.3).
fn prefix_at(mark: Mark) -> Option<UnaryOp>
    ensures { result ≡ spec.prefix_at mark }
{
    match mark {
        Mark::Ampersand => Some(UnaryOp::Address),
        Mark::Star => Some(UnaryOp::Deref),
        Mark::Plus => Some(UnaryOp::Plus),
        Mark::Minus => Some(UnaryOp::Minus),
        Mark::Tilde => Some(UnaryOp::Invert),
        Mark::Exclamation => Some(UnaryOp::Not),
        _ => None,
    }
}

/// `++` and `--` before an operand (6.5.3.1).
fn step_at(mark: Mark) -> Option<UnaryOp>
    ensures { result ≡ spec.step_at mark }
{
    match mark {
        Mark::Increment => Some(UnaryOp::PreInc),
        Mark::Decrement => Some(UnaryOp::PreDec),
        _ => None,
    }
}

/// `=` and the like, with the operator before the `=` (6.5.16).
fn assignment_at(mark: Mark) -> Option<Option<BinaryOp>>
    ensures { result ≡ spec.assignment_at mark }
{
    match mark {
        Mark::Assign => Some(None),
        Mark::StarAssign => Some(Some(BinaryOp::Mul)),
        Mark::SlashAssign => Some(Some(BinaryOp::Div)),
        Mark::PercentAssign => Some(Some(BinaryOp::Rem)),
        Mark::PlusAssign => Some(Some(BinaryOp::Add)),
        Mark::MinusAssign => Some(Some(BinaryOp::Sub)),
        Mark::ShiftLeftAssign => Some(Some(BinaryOp::Shl)),
        Mark::ShiftRightAssign => Some(Some(BinaryOp::Shr)),
        Mark::AmpersandAssign => Some(Some(BinaryOp::BitAnd)),
        Mark::CaretAssign => Some(Some(BinaryOp::BitXor)),
        Mark::BarAssign => Some(Some(BinaryOp::BitOr)),
        _ => None,
    }
}

/// Behind an operand (6.5.2).
fn suffix_at(place: Place, mark: Mark) -> Option<Suffix>
    ensures { result ≡ spec.suffix_at place mark }
{
    match mark {
        Mark::OpenBracket => Some(Suffix::Index(place)),
        Mark::OpenParenthesis => Some(Suffix::Call(place)),
        Mark::Dot => Some(Suffix::Member {
            arrow: false,
            place,
        }),
        Mark::Arrow => Some(Suffix::Member { arrow: true, place }),
        Mark::Increment => Some(Suffix::Step(UnaryOp::PostInc, place)),
        Mark::Decrement => Some(Suffix::Step(UnaryOp::PostDec, place)),
        _ => None,
    }
}

/// The operator that a mark is, if it binds one rank looser than `tighter`.
fn looser(tighter: u8, mark: Mark) -> Option<BinaryOp>
    requires { tighter < 10 }
    ensures { result ≡ spec.of_rank (suc tighter) mark }
{
    match binary_at(mark) {
        Some(op) if rank(op) == tighter + 1 => Some(op),
        _ => None,
    }
}

/// The operator one rank looser than `tighter` that a token is, and its place.
fn operator_of(lexicon: &Lexicon, tighter: u8, token: &Token) -> Option<(BinaryOp, Place)>
    requires { tighter < 10 }
    ensures { result ≡ spec.operator_of (meant lexicon.now) (suc tighter) token.now }
{
    let op = looser(tighter, mark_of(lexicon.names, token)?)?;
    Some((op, token.place))
}

fn prefix_of(lexicon: &Lexicon, token: &Token) -> Option<(UnaryOp, Place)>
    ensures { result ≡ spec.prefix_of (meant lexicon.now) token.now }
{
    let op = prefix_at(mark_of(lexicon.names, token)?)?;
    Some((op, token.place))
}

fn step_of(lexicon: &Lexicon, token: &Token) -> Option<(UnaryOp, Place)>
    ensures { result ≡ spec.step_of (meant lexicon.now) token.now }
{
    let op = step_at(mark_of(lexicon.names, token)?)?;
    Some((op, token.place))
}

fn assignment_of(lexicon: &Lexicon, token: &Token) -> Option<(Option<BinaryOp>, Place)>
    ensures { result ≡ spec.assignment_of (meant lexicon.now) token.now }
{
    let op = assignment_at(mark_of(lexicon.names, token)?)?;
    Some((op, token.place))
}

fn suffix_of(lexicon: &Lexicon, token: &Token) -> Option<Suffix>
    ensures { result ≡ spec.suffix_of (meant lexicon.now) token.now }
{
    suffix_at(token.place, mark_of(lexicon.names, token)?)
}

// ---- the next token

pub fn is_operator_next(lexicon: &Lexicon, tighter: u8, tokens: &[Token]) -> bool
    requires { tighter < 10 }
    ensures { result ≡ at_next (reader.is_operator (meant lexicon.now) (suc tighter)) tokens.now }
{
    match tokens.first() {
        Some(token) => operator_of(lexicon, tighter, token).is_some(),
        None => false,
    }
}

pub fn is_prefix(lexicon: &Lexicon, token: &Token) -> bool
    ensures { result ≡ reader.is_prefix (meant lexicon.now) token.now }
{
    prefix_of(lexicon, token).is_some()
}

pub fn is_prefix_next(lexicon: &Lexicon, tokens: &[Token]) -> bool
    ensures { result ≡ at_next (reader.is_prefix (meant lexicon.now)) tokens.now }
{
    match tokens.first() {
        Some(token) => is_prefix(lexicon, token),
        None => false,
    }
}

pub fn is_step(lexicon: &Lexicon, token: &Token) -> bool
    ensures { result ≡ reader.is_step (meant lexicon.now) token.now }
{
    step_of(lexicon, token).is_some()
}

pub fn is_step_next(lexicon: &Lexicon, tokens: &[Token]) -> bool
    ensures { result ≡ at_next (reader.is_step (meant lexicon.now)) tokens.now }
{
    match tokens.first() {
        Some(token) => is_step(lexicon, token),
        None => false,
    }
}

/// Whether a token goes on from an operand.
pub fn is_suffix(lexicon: &Lexicon, token: &Token) -> bool
    ensures { result ≡ reader.is_suffix (meant lexicon.now) token.now }
{
    suffix_of(lexicon, token).is_some()
}

pub fn is_suffix_next(lexicon: &Lexicon, tokens: &[Token]) -> bool
    ensures { result ≡ at_next (reader.is_suffix (meant lexicon.now)) tokens.now }
{
    match tokens.first() {
        Some(token) => is_suffix(lexicon, token),
        None => false,
    }
}

/// Whether a token is `=` or the like.
pub fn is_assignment(lexicon: &Lexicon, token: &Token) -> bool
    ensures { result ≡ is_some (spec.assignment_of (meant lexicon.now) token.now) }
{
    assignment_of(lexicon, token).is_some()
}

/// Whether the next token is `=` or the like.
pub fn is_assignment_next(lexicon: &Lexicon, tokens: &[Token]) -> bool
    ensures { result ≡ at_next (λ t. is_some (spec.assignment_of (meant lexicon.now) t))
        tokens.now }
{
    match tokens.first() {
        Some(token) => is_assignment(lexicon, token),
        None => false,
    }
}

pub fn take_operator<'a>(
    lexicon: &Lexicon,
    tighter: u8,
    tokens: &'a [Token],
) -> Result<Read<'a, (BinaryOp, Place)>, ReadFault>
    requires { tighter < 10 }
    ensures { Gives (taken reader.unexpected (spec.operator_of (meant lexicon.now) (suc tighter))
        tokens.now) result }
{
    match tokens.split_first() {
        Some((token, rest)) => take(operator_of(lexicon, tighter, token), rest),
        None => Err(ReadFault::at_end()),
    }
}

pub fn take_prefix<'a>(
    lexicon: &Lexicon,
    tokens: &'a [Token],
) -> Result<Read<'a, (UnaryOp, Place)>, ReadFault>
    ensures { Gives (taken reader.unexpected (spec.prefix_of (meant lexicon.now)) tokens.now)
        result }
{
    match tokens.split_first() {
        Some((token, rest)) => take(prefix_of(lexicon, token), rest),
        None => Err(ReadFault::at_end()),
    }
}

pub fn take_step<'a>(
    lexicon: &Lexicon,
    tokens: &'a [Token],
) -> Result<Read<'a, (UnaryOp, Place)>, ReadFault>
    ensures { Gives (taken reader.unexpected (spec.step_of (meant lexicon.now)) tokens.now) result }
{
    match tokens.split_first() {
        Some((token, rest)) => take(step_of(lexicon, token), rest),
        None => Err(ReadFault::at_end()),
    }
}

pub fn take_assignment<'a>(
    lexicon: &Lexicon,
    tokens: &'a [Token],
) -> Result<Read<'a, (Option<BinaryOp>, Place)>, ReadFault>
    ensures { Gives (taken reader.unexpected (spec.assignment_of (meant lexicon.now)) tokens.now)
        result }
{
    match tokens.split_first() {
        Some((token, rest)) => take(assignment_of(lexicon, token), rest),
        None => Err(ReadFault::at_end()),
    }
}

pub fn take_suffix<'a>(
    lexicon: &Lexicon,
    tokens: &'a [Token],
) -> Result<Read<'a, Suffix>, ReadFault>
    ensures { Gives (taken reader.unexpected (spec.suffix_of (meant lexicon.now)) tokens.now)
        result }
{
    match tokens.split_first() {
        Some((token, rest)) => take(suffix_of(lexicon, token), rest),
        None => Err(ReadFault::at_end()),
    }
}
