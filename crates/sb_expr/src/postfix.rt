//! Operands and what stands behind them (C99 6.5.1, 6.5.2).
ghost use Rattle.std.specs.Prelude.{◌≤◌, ◌<◌, ◌+◌, IfOk};
ghost use Rattle.sb_parse.specs.Parser.{looped};
ghost use Rattle.sb_operand.specs.Meaning.{plain_found, IsKnown, Reads};
ghost use Rattle.sb_expr.specs.Meaning.{nested, IsListKnown, ReadsList};
ghost use Rattle.sb_lexicon.specs.Meaning.{meant};
ghost use Rattle.sb_expr.specs.Parts.{member as named};
ghost use Rattle.sb_expr.specs.Readers as spec;
ghost use Rattle.sb_lexicon.specs.Tokens as lexeme;
ghost use Rattle.sb_tree.specs.Plain.{plain_exprs};

use crate::expressions::{Level, within};
use sb_base::{Place, Token};
use sb_lexicon::{
    Lexicon, ReadFault, Suffix, is_mark_next, is_suffix_next, take_mark, take_member, take_suffix,
};
use sb_operand::{Found, call, index, member, paren, take_operand, unary};
use sb_sign::Mark;
use sb_tree::Expr;
use std::alloc::Global;

/// The arguments of a call, how deep the deepest is, and the tokens after them.
#[derive(Drop)]
pub(crate) struct ArgumentList<'a> {
    pub(crate) list: Vec<Expr>,
    pub(crate) depth: u32,
    pub(crate) rest: &'a [Token],
}

#[cycle(expression)]
#[tactic(auto, unfolding(crate::specs::Readers::grouped))]
fn grouped<'a>(
    alloc: Global,
    lexicon: &Lexicon,
    below: u32,
    tokens: &'a [Token],
) -> Result<Found<'a>, ReadFault>
    requires shallow { below < 200 }
    ensures read { Reads (nested spec.grouped (meant lexicon.now) below tokens.now) result }
    ensures depth { IfOk result (λ f. f.depth ≤ below + 1) }
{
    let open = take_mark(lexicon, Mark::OpenParenthesis, tokens)?;
    let inner = within(alloc, lexicon, Level::Sequence, below, open.rest)?;
    let close = take_mark(lexicon, Mark::CloseParenthesis, inner.rest)?;
    Ok(Found {
        tree: paren(alloc, inner.tree, open.value.place)?,
        depth: inner.depth + 1,
        rest: close.rest,
    })
}

#[cycle(expression)]
#[tactic(auto, unfolding(crate::specs::Readers::primary))]
fn primary<'a>(
    alloc: Global,
    lexicon: &Lexicon,
    below: u32,
    tokens: &'a [Token],
) -> Result<Found<'a>, ReadFault>
    requires shallow { below < 200 }
    ensures read { Reads (nested spec.primary (meant lexicon.now) below tokens.now) result }
    ensures depth { IfOk result (λ f. f.depth ≤ below + 1) }
{
    if !is_mark_next(lexicon, Mark::OpenParenthesis, tokens) {
        return take_operand(alloc, lexicon, tokens);
    }
    if below == 0 {
        return Err(ReadFault::too_deep(tokens));
    }
    grouped(alloc, lexicon, below, tokens)
}

/// A comma and one more argument.
#[cycle(expression)]
#[tactic(auto, unfolding(crate::specs::Readers::next_argument), using(sb_operand::proofs::Lists::more_exprs, sb_operand::proofs::Lists::depth_of_more))]
fn next_argument<'a>(
    alloc: Global,
    lexicon: &Lexicon,
    so_far: ArgumentList<'a>,
    below: u32,
) -> Result<ArgumentList<'a>, ReadFault>
    requires shallow { below < 200 }
    requires known { IsListKnown so_far }
    requires low { so_far.depth ≤ below }
    ensures read { ReadsList (nested spec.next_argument (meant lexicon.now) below
        (plain_exprs so_far.entry.list.items) so_far.entry.rest.now) result }
    ensures depth { IfOk result (λ a. a.depth ≤ below) }
{
    let comma = take_mark(lexicon, Mark::Comma, so_far.rest)?;
    let next = within(alloc, lexicon, Level::Assignment, below, comma.rest)?;
    let mut list = so_far.list;
    list.push(Box::into_inner(next.tree))?;
    Ok(ArgumentList {
        list,
        depth: so_far.depth.max(next.depth),
        rest: next.rest,
    })
}

/// As many commas as there are, each with one more argument.
#[cycle(expression)]
fn more_arguments<'a>(
    alloc: Global,
    lexicon: &Lexicon,
    first: ArgumentList<'a>,
    below: u32,
) -> Result<ArgumentList<'a>, ReadFault>
    requires shallow { below < 200 }
    requires known { IsListKnown first }
    requires low { first.depth ≤ below }
    ensures read { ReadsList (looped (lexeme.is_comma (meant lexicon.now))
        (nested spec.next_argument (meant lexicon.now) below) (plain_exprs first.entry.list.items)
        first.entry.rest.now) result }
    ensures depth { IfOk result (λ a. a.depth ≤ below) }
{
    let most = first.rest.len();
    let mut found = first;
    for _turn in 0..most {
        if !is_mark_next(lexicon, Mark::Comma, found.rest) {
            return Ok(found);
        }
        found = next_argument(alloc, lexicon, found, below)?;
    }
    Ok(found)
}

#[cycle(expression)]
#[tactic(auto, unfolding(crate::specs::Readers::some_arguments))]
fn some_arguments<'a>(
    alloc: Global,
    lexicon: &Lexicon,
    below: u32,
    tokens: &'a [Token],
) -> Result<ArgumentList<'a>, ReadFault>
    requires shallow { below < 200 }
    ensures read { ReadsList (nested spec.some_arguments (meant lexicon.now) below tokens.now)
        result }
    ensures depth { IfOk result (λ a. a.depth ≤ below) }
{
    let first = within(alloc, lexicon, Level::Assignment, below, tokens)?;
    let mut list = Vec::new(alloc);
    list.push(Box::into_inner(first.tree))?;
    let one = ArgumentList {
        list,
        depth: first.depth,
        rest: first.rest,
    };
    more_arguments(alloc, lexicon, one, below)
}

#[cycle(expression)]
#[tactic(auto, unfolding(crate::specs::Readers::arguments))]
fn arguments<'a>(
    alloc: Global,
    lexicon: &Lexicon,
    below: u32,
    tokens: &'a [Token],
) -> Result<ArgumentList<'a>, ReadFault>
    requires shallow { below < 200 }
    ensures read { ReadsList (nested spec.arguments (meant lexicon.now) below tokens.now) result }
    ensures depth { IfOk result (λ a. a.depth ≤ below) }
{
    if is_mark_next(lexicon, Mark::CloseParenthesis, tokens) {
        return Ok(ArgumentList {
            list: Vec::new(alloc),
            depth: 0,
            rest: tokens,
        });
    }
    some_arguments(alloc, lexicon, below, tokens)
}

/// What stands behind `[`.
#[cycle(expression)]
#[tactic(auto, unfolding(crate::specs::Readers::indexed))]
fn indexed<'a>(
    alloc: Global,
    lexicon: &Lexicon,
    base: Found<'a>,
    place: Place,
    below: u32,
) -> Result<Found<'a>, ReadFault>
    requires shallow { below < 200 }
    requires known { IsKnown base }
    requires low { base.depth ≤ below }
    ensures read { Reads (nested spec.indexed (meant lexicon.now) below (plain_found base.entry)
        place base.entry.rest.now) result }
    ensures depth { IfOk result (λ f. f.depth ≤ below + 1) }
{
    let at = within(alloc, lexicon, Level::Sequence, below, base.rest)?;
    let close = take_mark(lexicon, Mark::CloseBracket, at.rest)?;
    Ok(Found {
        tree: index(alloc, base.tree, at.tree, place)?,
        depth: base.depth.max(at.depth) + 1,
        rest: close.rest,
    })
}

/// What stands behind the `(` of a call.
#[cycle(expression)]
#[tactic(auto, unfolding(crate::specs::Readers::called))]
fn called<'a>(
    alloc: Global,
    lexicon: &Lexicon,
    callee: Found<'a>,
    place: Place,
    below: u32,
) -> Result<Found<'a>, ReadFault>
    requires shallow { below < 200 }
    requires known { IsKnown callee }
    requires low { callee.depth ≤ below }
    ensures read { Reads (nested spec.called (meant lexicon.now) below (plain_found callee.entry)
        place callee.entry.rest.now) result }
    ensures depth { IfOk result (λ f. f.depth ≤ below + 1) }
{
    let args = arguments(alloc, lexicon, below, callee.rest)?;
    let close = take_mark(lexicon, Mark::CloseParenthesis, args.rest)?;
    Ok(Found {
        tree: call(alloc, callee.tree, args.list, place)?,
        depth: callee.depth.max(args.depth) + 1,
        rest: close.rest,
    })
}

/// The name behind `.` or `->`.
fn named_member<'a>(
    alloc: Global,
    lexicon: &Lexicon,
    of: Found<'a>,
    arrow: bool,
    place: Place,
) -> Result<Found<'a>, ReadFault>
    requires known { IsKnown of }
    requires low { of.depth < 200 }
    ensures read { Reads (named (meant lexicon.now) (plain_found of.entry) arrow place
        of.entry.rest.now) result }
    ensures depth { IfOk result (λ f. f.depth ≤ of.entry.depth + 1) }
{
    let name = take_member(lexicon, of.rest)?;
    Ok(Found {
        tree: member(alloc, of.tree, arrow, name.value, place)?,
        depth: of.depth + 1,
        rest: name.rest,
    })
}

#[cycle(expression)]
#[tactic(auto, unfolding(crate::specs::Readers::member))]
fn suffixed_by<'a>(
    alloc: Global,
    lexicon: &Lexicon,
    first: Found<'a>,
    suffix: Suffix,
    below: u32,
) -> Result<Found<'a>, ReadFault>
    requires shallow { below < 200 }
    requires known { IsKnown first }
    requires low { first.depth ≤ below }
    ensures read { Reads (nested spec.suffixed_by (meant lexicon.now) below
        (plain_found first.entry) suffix first.entry.rest.now) result }
    ensures depth { IfOk result (λ f. f.depth ≤ below + 1) }
{
    match suffix {
        Suffix::Index(place) => indexed(alloc, lexicon, first, place, below),
        Suffix::Call(place) => called(alloc, lexicon, first, place, below),
        Suffix::Member { arrow, place } => named_member(alloc, lexicon, first, arrow, place),
        Suffix::Step(op, place) => Ok(Found {
            tree: unary(alloc, op, first.tree, place)?,
            depth: first.depth + 1,
            rest: first.rest,
        }),
    }
}

#[cycle(expression)]
#[tactic(auto, unfolding(crate::specs::Readers::suffixed))]
fn suffixed<'a>(
    alloc: Global,
    lexicon: &Lexicon,
    first: Found<'a>,
    below: u32,
) -> Result<Found<'a>, ReadFault>
    requires shallow { below < 200 }
    requires known { IsKnown first }
    ensures read { Reads (nested spec.suffixed (meant lexicon.now) below (plain_found first.entry)
        first.entry.rest.now) result }
    ensures depth { IfOk result (λ f. f.depth ≤ below + 1) }
{
    if below < first.depth {
        return Err(ReadFault::too_deep(first.rest));
    }
    let suffix = take_suffix(lexicon, first.rest)?;
    let operand = Found {
        tree: first.tree,
        depth: first.depth,
        rest: suffix.rest,
    };
    suffixed_by(alloc, lexicon, operand, suffix.value, below)
}

/// As many suffixes as there are.
#[cycle(expression)]
fn suffixes<'a>(
    alloc: Global,
    lexicon: &Lexicon,
    first: Found<'a>,
    below: u32,
) -> Result<Found<'a>, ReadFault>
    requires shallow { below < 200 }
    requires known { IsKnown first }
    requires low { first.depth ≤ below + 1 }
    ensures read { Reads (looped (lexeme.is_suffix (meant lexicon.now))
        (nested spec.suffixed (meant lexicon.now) below) (plain_found first.entry)
        first.entry.rest.now) result }
    ensures depth { IfOk result (λ f. f.depth ≤ below + 1) }
{
    let most = first.rest.len();
    let mut found = first;
    for _turn in 0..most {
        if !is_suffix_next(lexicon, found.rest) {
            return Ok(found);
        }
        found = suffixed(alloc, lexicon, found, below)?;
    }
    Ok(found)
}

#[cycle(expression)]
#[tactic(auto, unfolding(crate::specs::Readers::postfix))]
pub(crate) fn postfix<'a>(
    alloc: Global,
    lexicon: &Lexicon,
    below: u32,
    tokens: &'a [Token],
) -> Result<Found<'a>, ReadFault>
    requires shallow { below < 200 }
    ensures read { Reads (nested spec.postfix (meant lexicon.now) below tokens.now) result }
    ensures depth { IfOk result (λ f. f.depth ≤ below + 1) }
{
    let first = primary(alloc, lexicon, below, tokens)?;
    suffixes(alloc, lexicon, first, below)
}
