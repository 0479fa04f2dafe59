//! The readers of statements.

ghost use Rattle.std.specs.Prelude.{◌≡◌, ◌≤◌, ◌<◌, length, IfOk};
ghost use Rattle.sb_parse.specs.Parser.{at_next};
ghost use Rattle.sb_function.specs.Reads.{ReadsAs};
ghost use Rattle.sb_function.specs.Statements as spec;
ghost use Rattle.sb_function.specs.Syntax.{Choose, Store};
ghost use Rattle.sb_function.specs.Trees.{plain, plains};

use crate::lexeme::{Lexeme, Piece};
use crate::reading::{Read, ReadFault, is_next, take_mark};
use crate::syntax::{Comparison, Param, Simple, Statement};
use crate::words::{
    begins_store, take_array, take_comparison, take_right, take_simple, take_value,
};
use sb_base::Place;
use std::alloc::{AllocFailed, Global};

#[tactic(auto, unfolding(crate::specs::Trees::plain))]
fn write(array: u32, index: Simple, value: Simple, place: Place) -> Statement
    ensures tree { plain result ≡ Store array index value place }
{
    Statement::Store {
        array,
        index,
        value,
        place,
    }
}

/// `p[i] = v;`
#[tactic(auto, unfolding(crate::specs::Statements::store))]
fn store<'a>(pieces: &'a [Piece], params: &[Param]) -> Result<Read<'a, Statement>, ReadFault>
    requires few { length params.now ≤ 32 }
    ensures read { ReadsAs plain (spec.store params.now pieces.now) result }
{
    let array = take_array(pieces, params)?;
    let bracket = take_mark(array.rest, Lexeme::OpenBracket)?;
    let index = take_simple(bracket.rest, params)?;
    let close = take_mark(index.rest, Lexeme::CloseBracket)?;
    let assign = take_mark(close.rest, Lexeme::Assign)?;
    let value = take_value(assign.rest, params)?;
    let semicolon = take_mark(value.rest, Lexeme::Semicolon)?;
    Ok(Read {
        value: write(array.value, index.value, value.value, bracket.value.place),
        rest: semicolon.rest,
    })
}

#[tactic(auto, unfolding(crate::specs::Trees::plain))]
fn choose(
    alloc: Global,
    left: Simple,
    op: Comparison,
    right: Simple,
    body: Statement,
) -> Result<Statement, AllocFailed<Statement>>
    ensures tree { IfOk result (λ s. plain s ≡ Choose left op right (plain body)) }
{
    let then = Box::new(alloc, body)?;
    Ok(Statement::If {
        left,
        op,
        right,
        then,
    })
}

#[tactic(auto, unfolding(crate::specs::Trees::plain))]
fn block(list: Vec<Statement>) -> Statement
    ensures tree { plain result ≡ spec.in_order (plains list.items) }
{
    Statement::Block(list)
}

fn begins_statement(pieces: &[Piece], params: &[Param]) -> bool
    requires few { length params.now ≤ 32 }
    ensures begins { result ≡ at_next (spec.begins_statement params.now) pieces.now }
{
    is_next(pieces, Lexeme::OpenBrace)
        || is_next(pieces, Lexeme::If)
        || begins_store(pieces, params)
}

/// `if (a < b) statement`, where the statement under it is nested at most `left` deep.
#[cycle(statement)]
#[tactic(auto, unfolding(crate::specs::Statements::conditional))]
fn conditional<'a>(
    alloc: Global,
    pieces: &'a [Piece],
    params: &[Param],
    left: u32,
) -> Result<Read<'a, Statement>, ReadFault>
    requires few { length params.now ≤ 32 }
    requires shallow { left < 200 }
    ensures read { ReadsAs plain
        (spec.conditional params.now (spec.statement params.now left) pieces.now) result }
{
    let word = take_mark(pieces, Lexeme::If)?;
    let parenthesis = take_mark(word.rest, Lexeme::OpenParenthesis)?;
    let first = take_simple(parenthesis.rest, params)?;
    let op = take_comparison(first.rest)?;
    let second = take_right(op.rest, params, first.value)?;
    let close = take_mark(second.rest, Lexeme::CloseParenthesis)?;
    let body = statement(alloc, close.rest, params, left)?;
    Ok(Read {
        value: choose(alloc, first.value, op.value, second.value, body.value)?,
        rest: body.rest,
    })
}

/// One statement more.
#[cycle(statement)]
#[tactic(auto, unfolding(crate::specs::Statements::statement_more))]
fn statement_more<'a>(
    alloc: Global,
    pieces: &'a [Piece],
    params: &[Param],
    left: u32,
    list: Vec<Statement>,
) -> Result<Read<'a, Vec<Statement>>, ReadFault>
    requires few { length params.now ≤ 32 }
    requires shallow { left < 200 }
    ensures read { ReadsAs (λ v. plains v.items)
        (spec.statement_more params.now (spec.statement params.now left) (plains list.items)
        pieces.now) result }
{
    let next = statement(alloc, pieces, params, left)?;
    let mut list = list;
    list.push(next.value)?;
    Ok(Read {
        value: list,
        rest: next.rest,
    })
}

/// The statements of a block, each nested at most `left` deep.
#[cycle(statement)]
fn statements<'a>(
    alloc: Global,
    pieces: &'a [Piece],
    params: &[Param],
    left: u32,
) -> Result<Read<'a, Vec<Statement>>, ReadFault>
    requires few { length params.now ≤ 32 }
    requires shallow { left < 200 }
    ensures read { ReadsAs (λ v. spec.in_order (plains v.items))
        (spec.statements params.now (spec.statement params.now left) pieces.now) result }
{
    let mut found = Read {
        value: Vec::new(alloc),
        rest: pieces,
    };
    for _turn in 0..pieces.len() {
        if !begins_statement(found.rest, params) {
            return Ok(found);
        }
        found = statement_more(alloc, found.rest, params, left, found.value)?;
    }
    Ok(found)
}

/// The statements of a block up to its brace, each nested at most `left` deep.
#[cycle(statement)]
#[tactic(auto, unfolding(crate::specs::Statements::block_rest))]
pub(crate) fn block_rest<'a>(
    alloc: Global,
    pieces: &'a [Piece],
    params: &[Param],
    left: u32,
) -> Result<Read<'a, Vec<Statement>>, ReadFault>
    requires few { length params.now ≤ 32 }
    requires shallow { left < 200 }
    ensures read { ReadsAs (λ v. spec.in_order (plains v.items))
        (spec.block_rest params.now (spec.statement params.now left) pieces.now) result }
{
    let list = statements(alloc, pieces, params, left)?;
    let close = take_mark(list.rest, Lexeme::CloseBrace)?;
    Ok(Read {
        value: list.value,
        rest: close.rest,
    })
}

#[cycle(statement)]
#[tactic(auto, unfolding(crate::specs::Statements::braced))]
fn braced<'a>(
    alloc: Global,
    pieces: &'a [Piece],
    params: &[Param],
    left: u32,
) -> Result<Read<'a, Statement>, ReadFault>
    requires few { length params.now ≤ 32 }
    requires shallow { left < 200 }
    ensures read { ReadsAs plain
        (spec.braced params.now (spec.statement params.now left) pieces.now) result }
{
    let brace = take_mark(pieces, Lexeme::OpenBrace)?;
    let list = block_rest(alloc, brace.rest, params, left)?;
    Ok(Read {
        value: block(list.value),
        rest: list.rest,
    })
}

/// A statement that is nested at most `left` deep.
#[cycle(statement)]
fn statement<'a>(
    alloc: Global,
    pieces: &'a [Piece],
    params: &[Param],
    left: u32,
) -> Result<Read<'a, Statement>, ReadFault>
    requires few { length params.now ≤ 32 }
    requires shallow { left ≤ 200 }
    ensures read { ReadsAs plain (spec.statement params.now left pieces.now) result }
{
    if left == 0 {
        return Err(ReadFault::Refused(pieces.len()));
    }
    if is_next(pieces, Lexeme::OpenBrace) {
        return braced(alloc, pieces, params, left - 1);
    }
    if is_next(pieces, Lexeme::If) {
        if left == 1 {
            return Err(ReadFault::Refused(pieces.len()));
        }
        return conditional(alloc, pieces, params, left - 1);
    }
    if begins_store(pieces, params) {
        return store(pieces, params);
    }
    Err(ReadFault::Refused(pieces.len()))
}
