//! The readers of conditions (C99 6.10.1, 6.6): each gives what the expression comes to that it reads, and goes as deep as
//! parentheses, operators before an operand and `?:` may still be nested. 200 levels keep the stack from being the limit.

ghost use Rattle.std.specs.Prelude.{◌≡◌, ◌+◌, ◌<◌, ◌≤◌};
ghost use Rattle.sb_parse.specs.Parser.{looped};
ghost use Rattle.sb_cond.specs.Readers as spec;
ghost use Rattle.sb_cond.specs.Reads.{Reads};

use crate::arithmetic::{Operand, binary, fault_of, fault_selected, in_sequence, selected, unary};
use crate::reading::{
    Read, Stopped, is_comma_next, is_mark_next, is_operator_next, is_prefix_next, take_comma,
    take_mark, take_operand, take_operator, take_prefix,
};
use crate::sign::{ConditionToken, Mark};

/// Where an expression stands one level deeper.
#[derive(Clone, Copy, PartialEq, Eq)]
pub enum Entry {
    /// Behind an operator that stands before its operand.
    Operand,
    /// Behind the colon of `?:`.
    Branch,
    /// In parentheses, or before the colon of `?:`.
    Whole,
}

#[cycle(expression)]
fn part<'a>(
    tokens: &'a [ConditionToken],
    entry: Entry,
    left: u32,
) -> Result<Read<'a, Operand>, Stopped>
    requires some { 0 < left }
    requires shallow { left ≤ 200 }
    ensures read { Reads (spec.below left entry tokens.now) result }
{
    match entry {
        Entry::Operand => operand(tokens, left - 1),
        Entry::Branch => conditional(tokens, left - 1),
        Entry::Whole => sequence(tokens, left - 1),
    }
}

#[cycle(expression)]
#[tactic(auto, unfolding(crate::specs::Readers::group))]
fn group<'a>(tokens: &'a [ConditionToken], left: u32) -> Result<Read<'a, Operand>, Stopped>
    requires some { 0 < left }
    requires shallow { left ≤ 200 }
    ensures read { Reads (spec.group (spec.is_zero left) (spec.below left) tokens.now) result }
{
    let open = take_mark(Mark::Open, None, tokens)?;
    let inner = part(open.rest, Entry::Whole, left)?;
    let close = take_mark(Mark::Close, fault_of(inner.value), inner.rest)?;
    Ok(Read {
        value: inner.value,
        rest: close.rest,
    })
}

#[cycle(expression)]
#[tactic(auto, unfolding(crate::specs::Readers::primary))]
fn primary<'a>(tokens: &'a [ConditionToken], left: u32) -> Result<Read<'a, Operand>, Stopped>
    requires shallow { left ≤ 200 }
    ensures read { Reads (spec.primary (spec.is_zero left) (spec.below left) tokens.now) result }
{
    if !is_mark_next(Mark::Open, tokens) {
        return take_operand(tokens);
    }
    if left == 0 {
        return Err(Stopped {
            fault: None,
            left: tokens.len(),
        });
    }
    group(tokens, left)
}

#[cycle(expression)]
#[tactic(auto, unfolding(crate::specs::Readers::prefix_expression))]
fn prefix_expression<'a>(
    tokens: &'a [ConditionToken],
    left: u32,
) -> Result<Read<'a, Operand>, Stopped>
    requires some { 0 < left }
    requires shallow { left ≤ 200 }
    ensures read { Reads (spec.prefix_expression (spec.is_zero left) (spec.below left) tokens.now)
        result }
{
    let prefix = take_prefix(tokens)?;
    let inner = part(prefix.rest, Entry::Operand, left)?;
    Ok(Read {
        value: unary(prefix.value, inner.value),
        rest: inner.rest,
    })
}

#[cycle(expression)]
#[tactic(auto, unfolding(crate::specs::Readers::operand))]
fn operand<'a>(tokens: &'a [ConditionToken], left: u32) -> Result<Read<'a, Operand>, Stopped>
    requires shallow { left ≤ 200 }
    ensures read { Reads (spec.operand (spec.is_zero left) (spec.below left) tokens.now) result }
{
    if !is_prefix_next(tokens) {
        return primary(tokens, left);
    }
    if left == 0 {
        return Err(Stopped {
            fault: None,
            left: tokens.len(),
        });
    }
    prefix_expression(tokens, left)
}

/// An operator one rank looser than `tighter`, and its right operand.
#[cycle(expression)]
#[tactic(auto, unfolding(crate::specs::Readers::operation_on))]
fn operation_on<'a>(
    first: Read<'a, Operand>,
    tighter: u8,
    left: u32,
) -> Result<Read<'a, Operand>, Stopped>
    requires rank { tighter < 10 }
    requires shallow { left ≤ 200 }
    ensures read { Reads (spec.operation_on (spec.is_zero left) (spec.below left) tighter
        (spec.infix_at (spec.is_zero left) (spec.below left) tighter) first.entry.value
        first.entry.rest.now) result }
{
    let operator = take_operator(tighter + 1, first.rest)?;
    match infix(operator.rest, tighter, left) {
        Ok(second) => Ok(Read {
            value: binary(
                operator.value.1,
                operator.value.0,
                first.value,
                second.value,
            ),
            rest: second.rest,
        }),
        Err(stop) => Err(stop.behind(operator.value.0, first.value)),
    }
}

/// As many operators one rank looser than `tighter` as there are, each with its right operand.
#[cycle(expression)]
fn operators<'a>(
    first: Read<'a, Operand>,
    tighter: u8,
    left: u32,
) -> Result<Read<'a, Operand>, Stopped>
    requires rank { tighter < 10 }
    requires shallow { left ≤ 200 }
    ensures read { Reads (looped (spec.is_operator (tighter + 1))
        (spec.operation_on (spec.is_zero left) (spec.below left) tighter
        (spec.infix_at (spec.is_zero left) (spec.below left) tighter)) first.entry.value
        first.entry.rest.now) result }
{
    let mut found = first;
    for _turn in 0..first.rest.len() {
        if !is_operator_next(tighter + 1, found.rest) {
            return Ok(found);
        }
        found = operation_on(found, tighter, left)?;
    }
    Ok(found)
}

/// Operands and the operators between them, of this rank and of tighter ones.
#[cycle(expression)]
fn infix<'a>(
    tokens: &'a [ConditionToken],
    rank: u8,
    left: u32,
) -> Result<Read<'a, Operand>, Stopped>
    requires rank { rank ≤ 10 }
    requires shallow { left ≤ 200 }
    ensures read { Reads (spec.infix_at (spec.is_zero left) (spec.below left) rank tokens.now)
        result }
{
    if rank == 0 {
        return operand(tokens, left);
    }
    let first = infix(tokens, rank - 1, left)?;
    operators(first, rank - 1, left)
}

#[cycle(expression)]
#[tactic(auto, unfolding(crate::specs::Readers::second_branch))]
fn second_branch<'a>(
    first: Operand,
    second: Read<'a, Operand>,
    left: u32,
) -> Result<Read<'a, Operand>, Stopped>
    requires some { 0 < left }
    requires shallow { left ≤ 200 }
    ensures read { Reads (spec.second_branch (spec.is_zero left) (spec.below left) first
        second.entry.value second.entry.rest.now) result }
{
    let fault = fault_selected(first, fault_of(second.value), None);
    let colon = take_mark(Mark::Colon, fault, second.rest)?;
    match part(colon.rest, Entry::Branch, left) {
        Ok(third) => Ok(Read {
            value: selected(first, second.value, third.value),
            rest: third.rest,
        }),
        Err(stop) => Err(stop.in_second(first, second.value)),
    }
}

/// What stands behind the condition of `?:`.
#[cycle(expression)]
#[tactic(auto, unfolding(crate::specs::Readers::branches))]
fn branches<'a>(first: Read<'a, Operand>, left: u32) -> Result<Read<'a, Operand>, Stopped>
    requires some { 0 < left }
    requires shallow { left ≤ 200 }
    ensures read { Reads (spec.branches (spec.is_zero left) (spec.below left) first.entry.value
        first.entry.rest.now) result }
{
    let question = take_mark(Mark::Question, None, first.rest)?;
    match part(question.rest, Entry::Whole, left) {
        Ok(second) => second_branch(first.value, second, left),
        Err(stop) => Err(stop.in_first(first.value)),
    }
}

#[cycle(expression)]
#[tactic(auto, unfolding(crate::specs::Readers::conditional))]
fn conditional<'a>(tokens: &'a [ConditionToken], left: u32) -> Result<Read<'a, Operand>, Stopped>
    requires shallow { left ≤ 200 }
    ensures read { Reads (spec.conditional (spec.is_zero left) (spec.below left) tokens.now)
        result }
{
    let first = infix(tokens, 10, left)?;
    if !is_mark_next(Mark::Question, first.rest) {
        return Ok(first);
    }
    if left == 0 {
        return Err(Stopped {
            fault: fault_of(first.value),
            left: first.rest.len(),
        });
    }
    branches(first, left)
}

/// A comma and what follows it.
#[cycle(expression)]
#[tactic(auto, unfolding(crate::specs::Readers::comma_on))]
fn comma_on<'a>(first: Read<'a, Operand>, left: u32) -> Result<Read<'a, Operand>, Stopped>
    requires shallow { left ≤ 200 }
    ensures read { Reads (spec.comma_on (spec.is_zero left) (spec.below left) first.entry.value
        first.entry.rest.now) result }
{
    let comma = take_comma(first.rest)?;
    match conditional(comma.rest, left) {
        Ok(second) => Ok(Read {
            value: in_sequence(comma.value, first.value, second.value),
            rest: second.rest,
        }),
        Err(stop) => Err(stop.behind_comma(comma.value, first.value)),
    }
}

/// As many commas as there are, each with what follows it.
#[cycle(expression)]
fn commas<'a>(first: Read<'a, Operand>, left: u32) -> Result<Read<'a, Operand>, Stopped>
    requires shallow { left ≤ 200 }
    ensures read { Reads (looped spec.is_comma (spec.comma_on (spec.is_zero left) (spec.below left))
        first.entry.value first.entry.rest.now) result }
{
    let mut found = first;
    for _turn in 0..first.rest.len() {
        if !is_comma_next(found.rest) {
            return Ok(found);
        }
        found = comma_on(found, left)?;
    }
    Ok(found)
}

/// An expression nested at most `left` deep: all of it that the tokens begin with, and the tokens after it.
#[cycle(expression)]
#[tactic(auto, unfolding(crate::specs::Readers::sequence))]
pub(crate) fn sequence<'a>(
    tokens: &'a [ConditionToken],
    left: u32,
) -> Result<Read<'a, Operand>, Stopped>
    requires shallow { left ≤ 200 }
    ensures read { Reads (spec.sequence (spec.is_zero left) (spec.below left) tokens.now) result }
{
    let first = conditional(tokens, left)?;
    commas(first, left)
}
