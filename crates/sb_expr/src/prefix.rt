//! Operators before an operand, `sizeof` and casts (C99 6.5.3, 6.5.4).
ghost use Rattle.std.specs.Prelude.{◌≤◌, ◌<◌, ◌+◌, IfOk};
ghost use Rattle.sb_operand.specs.Meaning.{Reads};
ghost use Rattle.sb_expr.specs.Meaning.{nested};
ghost use Rattle.sb_lexicon.specs.Meaning.{meant, IsFault};
ghost use Rattle.sb_expr.specs.Parts.{no_room_inside};
ghost use Rattle.sb_expr.specs.Readers as spec;

use crate::expressions::{Level, no_room, within};
use crate::postfix::postfix;
use crate::type_names::type_within;
use sb_base::{Place, Token};
use sb_lexicon::{
    Feature, Lexicon, ReadFault, is_keyword_next, is_mark_next, is_prefix_next, is_step_next,
    is_type_second, take_keyword, take_mark, take_prefix, take_step,
};
use sb_operand::{Found, cast, size_of_expr, size_of_type, typed, unary};
use sb_sign::{Keyword, Mark};
use std::alloc::Global;

#[cycle(expression)]
#[tactic(auto, unfolding(crate::specs::Readers::prefixed))]
fn prefixed<'a>(
    alloc: Global,
    lexicon: &Lexicon,
    below: u32,
    tokens: &'a [Token],
) -> Result<Found<'a>, ReadFault>
    requires shallow { below < 200 }
    ensures read { Reads (nested spec.prefixed (meant lexicon.now) below tokens.now) result }
    ensures depth { IfOk result (λ f. f.depth ≤ below + 1) }
{
    let op = take_prefix(lexicon, tokens)?;
    let of = within(alloc, lexicon, Level::Infix(0), below, op.rest)?;
    Ok(Found {
        tree: unary(alloc, op.value.0, of.tree, op.value.1)?,
        depth: of.depth + 1,
        rest: of.rest,
    })
}

#[cycle(expression)]
#[tactic(auto, unfolding(crate::specs::Readers::stepping))]
fn stepping<'a>(
    alloc: Global,
    lexicon: &Lexicon,
    below: u32,
    tokens: &'a [Token],
) -> Result<Found<'a>, ReadFault>
    requires shallow { below < 200 }
    ensures read { Reads (nested spec.stepping (meant lexicon.now) below tokens.now) result }
    ensures depth { IfOk result (λ f. f.depth ≤ below + 1) }
{
    let op = take_step(lexicon, tokens)?;
    let of = within(alloc, lexicon, Level::Prefix, below, op.rest)?;
    Ok(Found {
        tree: unary(alloc, op.value.0, of.tree, op.value.1)?,
        depth: of.depth + 1,
        rest: of.rest,
    })
}

/// The type between parentheses behind `sizeof`.
#[cycle(expression)]
#[tactic(auto, unfolding(crate::specs::Readers::size_of_type))]
fn size_of_named<'a>(
    alloc: Global,
    lexicon: &Lexicon,
    below: u32,
    place: Place,
    tokens: &'a [Token],
) -> Result<Found<'a>, ReadFault>
    requires shallow { below < 200 }
    ensures read { Reads (nested spec.size_of_type (meant lexicon.now) below place tokens.now)
        result }
    ensures depth { IfOk result (λ f. f.depth ≤ below + 1) }
{
    let open = take_mark(lexicon, Mark::OpenParenthesis, tokens)?;
    let named = type_within(alloc, lexicon, below, open.rest)?;
    let close = take_mark(lexicon, Mark::CloseParenthesis, named.rest)?;
    if is_mark_next(lexicon, Mark::OpenBrace, close.rest) {
        return Err(ReadFault::lacks(Feature::CompoundLiteral, close.rest));
    }
    let type_name = typed(alloc, named.base, named.pieces)?;
    Ok(Found {
        tree: size_of_type(alloc, type_name, place)?,
        depth: named.depth + 1,
        rest: close.rest,
    })
}

/// The refusal of an expression in parentheses for which there is no room.
fn no_room_inside(lexicon: &Lexicon, tokens: &[Token]) -> ReadFault
    ensures { IsFault (no_room_inside (meant lexicon.now) tokens.now) result }
{
    match take_mark(lexicon, Mark::OpenParenthesis, tokens) {
        Ok(open) => no_room(lexicon, open.rest),
        Err(fault) => fault,
    }
}

#[cycle(expression)]
#[tactic(auto, unfolding(crate::specs::Readers::size_of_expr))]
fn size_of_operand<'a>(
    alloc: Global,
    lexicon: &Lexicon,
    below: u32,
    place: Place,
    tokens: &'a [Token],
) -> Result<Found<'a>, ReadFault>
    requires shallow { below < 200 }
    ensures read { Reads (nested spec.size_of_expr (meant lexicon.now) below place tokens.now)
        result }
    ensures depth { IfOk result (λ f. f.depth ≤ below + 1) }
{
    let of = within(alloc, lexicon, Level::Prefix, below, tokens)?;
    Ok(Found {
        tree: size_of_expr(alloc, of.tree, place)?,
        depth: of.depth + 1,
        rest: of.rest,
    })
}

/// What stands behind `sizeof` and begins with a parenthesis.
#[cycle(expression)]
#[tactic(auto, unfolding(crate::specs::Readers::size_of_either, crate::specs::Readers::no_room_inside))]
fn size_of_either<'a>(
    alloc: Global,
    lexicon: &Lexicon,
    below: u32,
    place: Place,
    tokens: &'a [Token],
) -> Result<Found<'a>, ReadFault>
    requires shallow { below < 200 }
    ensures read { Reads (nested spec.size_of_either (meant lexicon.now) below place tokens.now)
        result }
    ensures depth { IfOk result (λ f. f.depth ≤ below + 1) }
{
    if is_type_second(lexicon, tokens) {
        return size_of_named(alloc, lexicon, below, place, tokens);
    }
    if below < 2 {
        return Err(no_room_inside(lexicon, tokens));
    }
    size_of_operand(alloc, lexicon, below, place, tokens)
}

#[cycle(expression)]
#[tactic(auto, unfolding(crate::specs::Readers::size_of))]
fn size_of<'a>(
    alloc: Global,
    lexicon: &Lexicon,
    below: u32,
    tokens: &'a [Token],
) -> Result<Found<'a>, ReadFault>
    requires shallow { below < 200 }
    ensures read { Reads (nested spec.size_of (meant lexicon.now) below tokens.now) result }
    ensures depth { IfOk result (λ f. f.depth ≤ below + 1) }
{
    let word = take_keyword(lexicon, Keyword::SizeOf, tokens)?;
    if is_mark_next(lexicon, Mark::OpenParenthesis, word.rest) {
        return size_of_either(alloc, lexicon, below, word.value.place, word.rest);
    }
    size_of_operand(alloc, lexicon, below, word.value.place, word.rest)
}

#[cycle(expression)]
#[tactic(auto, unfolding(crate::specs::Readers::prefix_expr))]
pub(crate) fn prefix_expr<'a>(
    alloc: Global,
    lexicon: &Lexicon,
    below: u32,
    tokens: &'a [Token],
) -> Result<Found<'a>, ReadFault>
    requires shallow { below < 200 }
    ensures read { Reads (nested spec.prefix_expr (meant lexicon.now) below tokens.now) result }
    ensures depth { IfOk result (λ f. f.depth ≤ below + 1) }
{
    if is_prefix_next(lexicon, tokens) {
        if below == 0 {
            return Err(ReadFault::too_deep(tokens));
        }
        return prefixed(alloc, lexicon, below, tokens);
    }
    if is_step_next(lexicon, tokens) {
        if below == 0 {
            return Err(ReadFault::too_deep(tokens));
        }
        return stepping(alloc, lexicon, below, tokens);
    }
    if is_keyword_next(lexicon, Keyword::SizeOf, tokens) {
        if below == 0 {
            return Err(ReadFault::too_deep(tokens));
        }
        return size_of(alloc, lexicon, below, tokens);
    }
    postfix(alloc, lexicon, below, tokens)
}

#[cycle(expression)]
#[tactic(auto, unfolding(crate::specs::Readers::cast))]
fn converted<'a>(
    alloc: Global,
    lexicon: &Lexicon,
    below: u32,
    tokens: &'a [Token],
) -> Result<Found<'a>, ReadFault>
    requires shallow { below < 200 }
    ensures read { Reads (nested spec.cast (meant lexicon.now) below tokens.now) result }
    ensures depth { IfOk result (λ f. f.depth ≤ below + 1) }
{
    let open = take_mark(lexicon, Mark::OpenParenthesis, tokens)?;
    let named = type_within(alloc, lexicon, below, open.rest)?;
    let close = take_mark(lexicon, Mark::CloseParenthesis, named.rest)?;
    if is_mark_next(lexicon, Mark::OpenBrace, close.rest) {
        return Err(ReadFault::lacks(Feature::CompoundLiteral, close.rest));
    }
    let of = within(alloc, lexicon, Level::Infix(0), below, close.rest)?;
    let to = typed(alloc, named.base, named.pieces)?;
    Ok(Found {
        tree: cast(alloc, to, of.tree, open.value.place)?,
        depth: named.depth.max(of.depth) + 1,
        rest: of.rest,
    })
}

#[cycle(expression)]
#[tactic(auto, unfolding(crate::specs::Readers::cast_expr))]
pub(crate) fn cast_expr<'a>(
    alloc: Global,
    lexicon: &Lexicon,
    below: u32,
    tokens: &'a [Token],
) -> Result<Found<'a>, ReadFault>
    requires shallow { below < 200 }
    ensures read { Reads (nested spec.cast_expr (meant lexicon.now) below tokens.now) result }
    ensures depth { IfOk result (λ f. f.depth ≤ below + 1) }
{
    if !is_mark_next(lexicon, Mark::OpenParenthesis, tokens) {
        return prefix_expr(alloc, lexicon, below, tokens);
    }
    if below == 0 {
        return Err(ReadFault::too_deep(tokens));
    }
    if is_type_second(lexicon, tokens) {
        return converted(alloc, lexicon, below, tokens);
    }
    prefix_expr(alloc, lexicon, below, tokens)
}
