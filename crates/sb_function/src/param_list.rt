//! The readers of parameters, from the first to the parenthesis behind the last.

ghost use Rattle.std.specs.Prelude.{◌≡◌, ◌≤◌, ◌<◌, ◌+◌, length, IfOk};
ghost use Rattle.sb_parse.specs.Parser.{taken, pure};
ghost use Rattle.sb_function.specs.declared.lexeme.Lexeme.TheVariants as sign;
ghost use Rattle.sb_function.specs.declared.written.WrittenKind.TheVariants as kind;
ghost use Rattle.sb_function.specs.Headers.{seen_of};
ghost use Rattle.sb_function.specs.Marks.{misplaced, mark};
ghost use Rattle.sb_function.specs.Params as spec;
ghost use Rattle.sb_function.specs.Reads.{Reads, ReadsAs};

use crate::lexeme::{Lexeme, Piece};
use crate::params::Header;
use crate::reading::{Read, ReadFault, advance, is_next, peek, take_mark};
use crate::settling::params_of;
use crate::syntax::Param;
use crate::written::{Written, WrittenKind};
use sb_base::Name;
use std::alloc::Global;

fn take_number<'a>(
    header: &Header,
    pieces: &'a [Piece],
    room: usize,
) -> Result<Read<'a, Name>, ReadFault>
    ensures read { Reads (taken misplaced (spec.named (spec.number_name room (seen_of header.now)))
        pieces.now) result }
{
    advance(pieces, header.number_at(peek(pieces), room))
}

fn take_size<'a>(
    header: &Header,
    pieces: &'a [Piece],
    room: usize,
) -> Result<Read<'a, Name>, ReadFault>
    ensures read { Reads (taken misplaced (spec.named (spec.size_name room (seen_of header.now)))
        pieces.now) result }
{
    advance(pieces, header.size_at(peek(pieces), room))
}

fn take_pointer<'a>(
    header: &Header,
    pieces: &'a [Piece],
    size: Name,
) -> Result<Read<'a, Name>, ReadFault>
    ensures read { Reads (taken misplaced (spec.named (spec.pointer_name (seen_of header.now) size))
        pieces.now) result }
{
    advance(pieces, header.pointer_at(peek(pieces), size))
}

/// The name of a number parameter, behind its type. `room` more parameters may follow it.
#[tactic(auto, unfolding(crate::specs::Params::number_param))]
fn number_param<'a>(
    header: Header,
    pieces: &'a [Piece],
    room: usize,
    kind: WrittenKind,
) -> Result<Read<'a, Header>, ReadFault>
    ensures read { ReadsAs seen_of (spec.number_param room (seen_of header) kind pieces.now)
        result }
    ensures longer { IfOk result
        (λ r. length r.value.written.items ≡ length header.written.items + 1) }
{
    let name = take_number(&header, pieces, room)?;
    Ok(Read {
        value: header.with_number(kind, name.value)?,
        rest: name.rest,
    })
}

/// `_Out_writes_(n)`
#[tactic(auto, unfolding(crate::specs::Params::size_part))]
fn size_part<'a>(
    header: &Header,
    pieces: &'a [Piece],
    room: usize,
) -> Result<Read<'a, Name>, ReadFault>
    ensures read { Reads (spec.size_part room (seen_of header.now) pieces.now) result }
{
    let word = take_mark(pieces, Lexeme::OutWrites)?;
    let parenthesis = take_mark(word.rest, Lexeme::OpenParenthesis)?;
    let size = take_size(header, parenthesis.rest, room)?;
    let close = take_mark(size.rest, Lexeme::CloseParenthesis)?;
    Ok(Read {
        value: size.value,
        rest: close.rest,
    })
}

/// `int *p`, behind the annotation.
#[tactic(auto, unfolding(crate::specs::Params::name_part))]
fn name_part<'a>(
    header: &Header,
    pieces: &'a [Piece],
    size: Name,
) -> Result<Read<'a, Name>, ReadFault>
    ensures read { Reads (spec.name_part (seen_of header.now) size pieces.now) result }
{
    let int = take_mark(pieces, Lexeme::Int)?;
    let star = take_mark(int.rest, Lexeme::Star)?;
    let name = take_pointer(header, star.rest, size)?;
    Ok(name)
}

/// `_Out_writes_(n) int *p`
#[tactic(auto, using(crate::proofs::Steps::Pointers::parts_read, crate::proofs::Steps::Pointers::parts_stop_first, crate::proofs::Steps::Pointers::parts_stop_second))]
fn pointer_param<'a>(
    header: Header,
    pieces: &'a [Piece],
    room: usize,
) -> Result<Read<'a, Header>, ReadFault>
    ensures read { ReadsAs seen_of (spec.pointer_param room (seen_of header) pieces.now) result }
    ensures longer { IfOk result
        (λ r. length r.value.written.items ≡ length header.written.items + 1) }
{
    let size = size_part(&header, pieces, room)?;
    let name = name_part(&header, size.rest, size.value)?;
    Ok(Read {
        value: header.with_pointer(size.value, name.value)?,
        rest: name.rest,
    })
}

fn int_param<'a>(
    header: Header,
    pieces: &'a [Piece],
    room: usize,
) -> Result<Read<'a, Header>, ReadFault>
    ensures read { ReadsAs seen_of
        (mark sign.Int (spec.number_param room (seen_of header) kind.Int) pieces.now) result }
    ensures longer { IfOk result
        (λ r. length r.value.written.items ≡ length header.written.items + 1) }
{
    let word = take_mark(pieces, Lexeme::Int)?;
    number_param(header, word.rest, room, WrittenKind::Int)
}

fn unsigned_param<'a>(
    header: Header,
    pieces: &'a [Piece],
    room: usize,
) -> Result<Read<'a, Header>, ReadFault>
    ensures read { ReadsAs seen_of
        (mark sign.Unsigned (mark sign.Int (spec.number_param room (seen_of header) kind.Unsigned))
        pieces.now) result }
    ensures longer { IfOk result
        (λ r. length r.value.written.items ≡ length header.written.items + 1) }
{
    let word = take_mark(pieces, Lexeme::Unsigned)?;
    let int = take_mark(word.rest, Lexeme::Int)?;
    number_param(header, int.rest, room, WrittenKind::Unsigned)
}

/// A parameter, after which `room` more may follow.
fn param<'a>(
    header: Header,
    pieces: &'a [Piece],
    room: usize,
) -> Result<Read<'a, Header>, ReadFault>
    ensures read { ReadsAs seen_of (spec.param room (seen_of header) pieces.now) result }
    ensures longer { IfOk result
        (λ r. length r.value.written.items ≡ length header.written.items + 1) }
{
    if is_next(pieces, Lexeme::Int) {
        return int_param(header, pieces, room);
    }
    if is_next(pieces, Lexeme::Unsigned) {
        return unsigned_param(header, pieces, room);
    }
    if is_next(pieces, Lexeme::OutWrites) {
        if room < header.pending.len() {
            return Err(ReadFault::Refused(pieces.len()));
        }
        return pointer_param(header, pieces, room);
    }
    Err(ReadFault::Refused(pieces.len()))
}

/// What follows a parameter, up to the parenthesis behind the last, where `room` more may come.
#[cycle(params_after)]
fn params_after<'a>(
    header: Header,
    pieces: &'a [Piece],
    room: usize,
) -> Result<Read<'a, Vec<Written>>, ReadFault>
    requires small { room < 100 }
    ensures read { ReadsAs (λ v. v.items) (spec.params_after room (seen_of header) pieces.now)
        result }
    ensures few { IfOk result (λ r. length r.value.items ≤ length header.written.items + room) }
{
    if is_next(pieces, Lexeme::Comma) {
        if room == 0 {
            return Err(ReadFault::Refused(pieces.len()));
        }
        return params_behind(header, pieces, room - 1);
    }
    if is_next(pieces, Lexeme::CloseParenthesis) {
        if header.pending.len() > 0 {
            return Err(ReadFault::Refused(pieces.len()));
        }
        return close(header, pieces);
    }
    Err(ReadFault::Refused(pieces.len()))
}

fn close<'a>(header: Header, pieces: &'a [Piece]) -> Result<Read<'a, Vec<Written>>, ReadFault>
    ensures read { ReadsAs (λ v. v.items)
        (mark sign.CloseParenthesis (pure header.written.items) pieces.now) result }
    ensures same { IfOk result (λ r. r.value.items ≡ header.written.items) }
{
    let mark = take_mark(pieces, Lexeme::CloseParenthesis)?;
    Ok(Read {
        value: header.written,
        rest: mark.rest,
    })
}

#[cycle(params_after)]
#[tactic(auto, unfolding(crate::specs::Params::params_behind))]
fn params_behind<'a>(
    header: Header,
    pieces: &'a [Piece],
    room: usize,
) -> Result<Read<'a, Vec<Written>>, ReadFault>
    requires small { room < 100 }
    ensures read { ReadsAs (λ v. v.items) (spec.params_behind room (seen_of header) pieces.now)
        result }
    ensures few { IfOk result (λ r. length r.value.items ≤ length header.written.items + 1 + room) }
{
    let comma = take_mark(pieces, Lexeme::Comma)?;
    let next = param(header, comma.rest, room)?;
    params_after(next.value, next.rest, room)
}

/// The parameters of a function, up to the parenthesis behind them.
#[tactic(auto, unfolding(crate::specs::Params::params))]
pub(crate) fn read_params<'a>(
    alloc: Global,
    pieces: &'a [Piece],
) -> Result<Read<'a, Vec<Param>>, ReadFault>
    ensures read { ReadsAs (λ v. v.items) (spec.params pieces.now) result }
    ensures few { IfOk result (λ r. length r.value.items ≤ 32) }
{
    let none = Header {
        written: Vec::new(alloc),
        pending: Vec::new(alloc),
    };
    let first = param(none, pieces, 31)?;
    let list = params_after(first.value, first.rest, 31)?;
    let params = params_of(alloc, &list.value)?;
    Ok(Read {
        value: params,
        rest: list.rest,
    })
}
