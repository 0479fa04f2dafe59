//! Expressions, from casts with operators between them up to commas (C99 6.5.5 to 6.5.17).
ghost use Rattle.std.specs.Prelude.{◌≡◌, suc, ◌≤◌, ◌<◌, ◌+◌, IfOk};
ghost use Rattle.sb_parse.specs.Parser.{looped};
ghost use Rattle.sb_operand.specs.Meaning.{plain_found, IsKnown, Reads};
ghost use Rattle.sb_expr.specs.Meaning.{nested, plain_level, rank_of};
ghost use Rattle.sb_lexicon.specs.Meaning.{meant, IsFault};
ghost use Rattle.sb_expr.specs.Parts.{no_expr};
ghost use Rattle.sb_expr.specs.Readers as spec;
ghost use Rattle.sb_lexicon.specs.Tokens as lexeme;
ghost use Rattle.sb_tree.specs.Plain.{plain_expr};

use crate::prefix::{cast_expr, prefix_expr};
use sb_base::Token;
use sb_lexicon::{
    Lexicon, ReadFault, is_assignment_next, is_mark_next, is_operator_next, take_assignment,
    take_mark, take_operator,
};
use sb_operand::{Found, assign, binary, cond, is_expr_next};
use sb_sign::Mark;
use sb_tree::{BinaryOp, Expr};
use std::alloc::Global;

/// Which expressions may stand somewhere.
#[derive(Clone, Copy)]
pub enum Level {
    Prefix,
    /// Operators of this rank and of tighter ones; at 0 a cast.
    Infix(u8),
    Conditional,
    Assignment,
    Sequence,
}

/// The refusal of an expression for which there is no room.
pub fn no_room(lexicon: &Lexicon, tokens: &[Token]) -> ReadFault
    ensures { IsFault (no_expr (meant lexicon.now) tokens.now) result }
{
    if is_expr_next(lexicon, tokens) {
        return ReadFault::too_deep(tokens);
    }
    ReadFault::unexpected(tokens)
}

/// An expression at most `left` deep.
#[cycle(expression)]
pub fn within<'a>(
    alloc: Global,
    lexicon: &Lexicon,
    level: Level,
    left: u32,
    tokens: &'a [Token],
) -> Result<Found<'a>, ReadFault>
    requires shallow { left ≤ 200 }
    requires rank { rank_of level ≤ 10 }
    ensures read { Reads (spec.expr_reader (meant lexicon.now) left (plain_level level) tokens.now)
        result }
    ensures depth { IfOk result (λ f. f.depth ≤ left) }
{
    if left == 0 {
        return Err(no_room(lexicon, tokens));
    }
    match level {
        Level::Prefix => prefix_expr(alloc, lexicon, left - 1, tokens),
        Level::Infix(rank) => infix(alloc, lexicon, rank, left - 1, tokens),
        Level::Conditional => conditional(alloc, lexicon, left - 1, tokens),
        Level::Assignment => assignment(alloc, lexicon, left - 1, tokens),
        Level::Sequence => sequence(alloc, lexicon, left - 1, tokens),
    }
}

/// An operator one rank looser than `tighter`, and its right operand.
#[cycle(expression)]
#[tactic(auto, unfolding(crate::specs::Readers::operated))]
fn operated<'a>(
    alloc: Global,
    lexicon: &Lexicon,
    first: Found<'a>,
    tighter: u8,
    below: u32,
) -> Result<Found<'a>, ReadFault>
    requires shallow { below < 200 }
    requires known { IsKnown first }
    requires rank { tighter < 10 }
    ensures read { Reads (nested spec.operated (meant lexicon.now) below tighter
        (plain_found first.entry) first.entry.rest.now) result }
    ensures depth { IfOk result (λ f. f.depth ≤ below + 1) }
{
    if below < first.depth {
        return Err(ReadFault::too_deep(first.rest));
    }
    let op = take_operator(lexicon, tighter, first.rest)?;
    let right = within(alloc, lexicon, Level::Infix(tighter), below, op.rest)?;
    Ok(Found {
        tree: binary(alloc, op.value.0, first.tree, right.tree, op.value.1)?,
        depth: first.depth.max(right.depth) + 1,
        rest: right.rest,
    })
}

/// As many operators one rank looser than `tighter` as there are, each with its right operand.
#[cycle(expression)]
fn operators<'a>(
    alloc: Global,
    lexicon: &Lexicon,
    first: Found<'a>,
    tighter: u8,
    below: u32,
) -> Result<Found<'a>, ReadFault>
    requires shallow { below < 200 }
    requires known { IsKnown first }
    requires low { first.depth ≤ below + 1 }
    requires rank { tighter < 10 }
    ensures read { Reads (looped (lexeme.is_operator (meant lexicon.now) (suc tighter))
        (nested spec.operated (meant lexicon.now) below tighter) (plain_found first.entry)
        first.entry.rest.now) result }
    ensures depth { IfOk result (λ f. f.depth ≤ below + 1) }
{
    let most = first.rest.len();
    let mut found = first;
    for _turn in 0..most {
        if !is_operator_next(lexicon, tighter, found.rest) {
            return Ok(found);
        }
        found = operated(alloc, lexicon, found, tighter, below)?;
    }
    Ok(found)
}

/// Operands and the operators between them, of this rank and of tighter ones.
#[cycle(expression)]
fn infix<'a>(
    alloc: Global,
    lexicon: &Lexicon,
    rank: u8,
    below: u32,
    tokens: &'a [Token],
) -> Result<Found<'a>, ReadFault>
    requires shallow { below < 200 }
    requires rank { rank ≤ 10 }
    ensures read { Reads (nested spec.infix_at (meant lexicon.now) below rank tokens.now) result }
    ensures depth { IfOk result (λ f. f.depth ≤ below + 1) }
{
    if rank == 0 {
        return cast_expr(alloc, lexicon, below, tokens);
    }
    let first = infix(alloc, lexicon, rank - 1, below, tokens)?;
    operators(alloc, lexicon, first, rank - 1, below)
}

/// What stands behind the condition of `?:`.
#[cycle(expression)]
#[tactic(auto, unfolding(crate::specs::Readers::branches))]
fn branches<'a>(
    alloc: Global,
    lexicon: &Lexicon,
    first: Found<'a>,
    below: u32,
) -> Result<Found<'a>, ReadFault>
    requires shallow { below < 200 }
    requires known { IsKnown first }
    requires low { first.depth ≤ below }
    ensures read { Reads (nested spec.branches (meant lexicon.now) below (plain_found first.entry)
        first.entry.rest.now) result }
    ensures depth { IfOk result (λ f. f.depth ≤ below + 1) }
{
    let question = take_mark(lexicon, Mark::Question, first.rest)?;
    let yes = within(alloc, lexicon, Level::Sequence, below, question.rest)?;
    let colon = take_mark(lexicon, Mark::Colon, yes.rest)?;
    let no = within(alloc, lexicon, Level::Conditional, below, colon.rest)?;
    Ok(Found {
        tree: cond(alloc, first.tree, yes.tree, no.tree, question.value.place)?,
        depth: first.depth.max(yes.depth.max(no.depth)) + 1,
        rest: no.rest,
    })
}

#[cycle(expression)]
#[tactic(auto, unfolding(crate::specs::Readers::conditional))]
fn conditional<'a>(
    alloc: Global,
    lexicon: &Lexicon,
    below: u32,
    tokens: &'a [Token],
) -> Result<Found<'a>, ReadFault>
    requires shallow { below < 200 }
    ensures read { Reads (nested spec.conditional (meant lexicon.now) below tokens.now) result }
    ensures depth { IfOk result (λ f. f.depth ≤ below + 1) }
{
    let first = infix(alloc, lexicon, 10, below, tokens)?;
    if !is_mark_next(lexicon, Mark::Question, first.rest) {
        return Ok(first);
    }
    if below < first.depth {
        return Err(ReadFault::too_deep(first.rest));
    }
    branches(alloc, lexicon, first, below)
}

/// Whether an expression may stand on the left of `=` (6.5.16).
#[tactic(auto, unfolding(sb_tree::specs::Plain::plain_expr))]
fn is_unary(tree: &Expr) -> bool
    ensures { result ≡ spec.is_unary (plain_expr tree.now) }
{
    !matches!(
        tree,
        Expr::Binary { .. } | Expr::Assign { .. } | Expr::Cond { .. } | Expr::Cast { .. }
    )
}

/// `=` or the like, and what is assigned.
#[cycle(expression)]
#[tactic(auto, unfolding(crate::specs::Readers::assigned))]
fn assigned<'a>(
    alloc: Global,
    lexicon: &Lexicon,
    first: Found<'a>,
    below: u32,
) -> Result<Found<'a>, ReadFault>
    requires shallow { below < 200 }
    requires known { IsKnown first }
    requires low { first.depth ≤ below }
    ensures read { Reads (nested spec.assigned (meant lexicon.now) below (plain_found first.entry)
        first.entry.rest.now) result }
    ensures depth { IfOk result (λ f. f.depth ≤ below + 1) }
{
    let op = take_assignment(lexicon, first.rest)?;
    let value = within(alloc, lexicon, Level::Assignment, below, op.rest)?;
    Ok(Found {
        tree: assign(alloc, op.value.0, first.tree, value.tree, op.value.1)?,
        depth: first.depth.max(value.depth) + 1,
        rest: value.rest,
    })
}

#[cycle(expression)]
#[tactic(auto, unfolding(crate::specs::Readers::assignment))]
fn assignment<'a>(
    alloc: Global,
    lexicon: &Lexicon,
    below: u32,
    tokens: &'a [Token],
) -> Result<Found<'a>, ReadFault>
    requires shallow { below < 200 }
    ensures read { Reads (nested spec.assignment (meant lexicon.now) below tokens.now) result }
    ensures depth { IfOk result (λ f. f.depth ≤ below + 1) }
{
    let first = conditional(alloc, lexicon, below, tokens)?;
    if !(is_unary(&first.tree) && is_assignment_next(lexicon, first.rest)) {
        return Ok(first);
    }
    if below < first.depth {
        return Err(ReadFault::too_deep(first.rest));
    }
    assigned(alloc, lexicon, first, below)
}

/// A comma and what follows it.
#[cycle(expression)]
#[tactic(auto, unfolding(crate::specs::Readers::followed))]
fn followed<'a>(
    alloc: Global,
    lexicon: &Lexicon,
    first: Found<'a>,
    below: u32,
) -> Result<Found<'a>, ReadFault>
    requires shallow { below < 200 }
    requires known { IsKnown first }
    ensures read { Reads (nested spec.followed (meant lexicon.now) below (plain_found first.entry)
        first.entry.rest.now) result }
    ensures depth { IfOk result (λ f. f.depth ≤ below + 1) }
{
    if below < first.depth {
        return Err(ReadFault::too_deep(first.rest));
    }
    let comma = take_mark(lexicon, Mark::Comma, first.rest)?;
    let last = within(alloc, lexicon, Level::Assignment, below, comma.rest)?;
    Ok(Found {
        tree: binary(
            alloc,
            BinaryOp::Comma,
            first.tree,
            last.tree,
            comma.value.place,
        )?,
        depth: first.depth.max(last.depth) + 1,
        rest: last.rest,
    })
}

/// As many commas as there are, each with what follows it.
#[cycle(expression)]
fn commas<'a>(
    alloc: Global,
    lexicon: &Lexicon,
    first: Found<'a>,
    below: u32,
) -> Result<Found<'a>, ReadFault>
    requires shallow { below < 200 }
    requires known { IsKnown first }
    requires low { first.depth ≤ below + 1 }
    ensures read { Reads (looped (lexeme.is_comma (meant lexicon.now))
        (nested spec.followed (meant lexicon.now) below) (plain_found first.entry)
        first.entry.rest.now) result }
    ensures depth { IfOk result (λ f. f.depth ≤ below + 1) }
{
    let most = first.rest.len();
    let mut found = first;
    for _turn in 0..most {
        if !is_mark_next(lexicon, Mark::Comma, found.rest) {
            return Ok(found);
        }
        found = followed(alloc, lexicon, found, below)?;
    }
    Ok(found)
}

#[cycle(expression)]
#[tactic(auto, unfolding(crate::specs::Readers::sequence))]
fn sequence<'a>(
    alloc: Global,
    lexicon: &Lexicon,
    below: u32,
    tokens: &'a [Token],
) -> Result<Found<'a>, ReadFault>
    requires shallow { below < 200 }
    ensures read { Reads (nested spec.sequence (meant lexicon.now) below tokens.now) result }
    ensures depth { IfOk result (λ f. f.depth ≤ below + 1) }
{
    let first = assignment(alloc, lexicon, below, tokens)?;
    commas(alloc, lexicon, first, below)
}
