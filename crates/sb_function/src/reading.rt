//! The steps that every reader is made of.

ghost use Rattle.std.specs.Prelude.{◌≡◌, ◌≢◌, ◌↔◌, IsTrue, true, drop};
ghost use Rattle.sb_parse.specs.Parser.{token, at_next};
ghost use Rattle.sb_function.specs.declared.reading.ReadFault.TheVariants.{Memory};
ghost use Rattle.sb_function.specs.Marks.{misplaced, is_bare, is_mark, next_lexeme};
ghost use Rattle.sb_function.specs.Reads.{Reads, given};
ghost use Rattle.sb_function.specs.declared.lexeme.Lexeme.TheVariants.{Other};

use crate::lexeme::{Lexeme, Piece};
use std::alloc::AllocFailed;
use thiserror::Error;

/// Why a text was not read.
#[derive(Clone, Copy, Debug, PartialEq, Eq, Error)]
pub enum ReadFault {
    /// No text goes on so: this many pieces are left from the first that does not fit, 0 at the end.
    #[error("no text of the grammar goes on so")]
    Refused(usize),
    #[error("out of memory")]
    Memory,
}

impl<T: Drop> From<AllocFailed<T>> for ReadFault {
    ghost from_gives = { λ _ e. e ≡ Memory };

    fn from(_failed: AllocFailed<T>) -> ReadFault {
        ReadFault::Memory
    }
}

/// What was read, and the pieces after it.
#[derive(Drop)]
pub(crate) struct Read<'a, T> {
    pub(crate) value: T,
    pub(crate) rest: &'a [Piece],
}

/// The next word or mark; at the end `Other`, which no text has.
pub(crate) fn peek(pieces: &[Piece]) -> Lexeme
    ensures lexeme { result ≡ next_lexeme pieces.now }
{
    match pieces.first() {
        Some(piece) => piece.lexeme,
        None => Lexeme::Other,
    }
}

fn is_same(a: Lexeme, b: Lexeme) -> bool
    ensures same { IsTrue result ↔ a ≡ b }
{
    a == b
}

#[tactic(auto, using(crate::proofs::Steps::Marks::next_test))]
pub(crate) fn is_next(pieces: &[Piece], mark: Lexeme) -> bool
    requires bare { is_bare mark ≡ true }
    requires some { mark ≢ Other }
    ensures next { result ≡ at_next (is_mark mark) pieces.now }
{
    is_same(peek(pieces), mark)
}

fn after_first(pieces: &[Piece]) -> &[Piece]
    ensures rest { result.now ≡ drop 1 pieces.now }
{
    match pieces.split_first() {
        Some((_first, rest)) => rest,
        None => pieces,
    }
}

/// Goes past the next piece, which has this value, or refuses it where it has none.
pub(crate) fn advance<'a, T>(
    pieces: &'a [Piece],
    value: Option<T>,
) -> Result<Read<'a, T>, ReadFault>
    ensures read { Reads (given value pieces.now) result }
{
    match value {
        Some(value) => Ok(Read {
            value,
            rest: after_first(pieces),
        }),
        None => Err(ReadFault::Refused(pieces.len())),
    }
}

/// The next piece, which has to be this word or mark.
#[tactic(auto, using(crate::proofs::Steps::Marks::mark_there, crate::proofs::Steps::Marks::mark_lacking))]
pub(crate) fn take_mark<'a>(pieces: &'a [Piece], mark: Lexeme) -> Result<Read<'a, Piece>, ReadFault>
    requires bare { is_bare mark ≡ true }
    ensures read { Reads (token misplaced (is_mark mark) pieces.now) result }
{
    match pieces.split_first() {
        Some((piece, rest)) => {
            if is_same(piece.lexeme, mark) {
                Ok(Read {
                    value: *piece,
                    rest,
                })
            } else {
                Err(ReadFault::Refused(pieces.len()))
            }
        }
        None => Err(ReadFault::Refused(0)),
    }
}
