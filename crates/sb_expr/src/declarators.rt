//! Declarators without a name (C99 6.7.6).
ghost use Rattle.std.specs.Prelude.{◌≤◌, ◌<◌, ◌+◌, ◌-◌, IfOk};
ghost use Rattle.sb_parse.specs.Parser.{looped};
ghost use Rattle.sb_expr.specs.Meaning.{declared, piecewise, ReadsSize};
ghost use Rattle.sb_lexicon.specs.Meaning.{meant};
ghost use Rattle.sb_expr.specs.Expression as level;
ghost use Rattle.sb_expr.specs.Parts.{enclosed, sized};
ghost use Rattle.sb_expr.specs.Readers as spec;
ghost use Rattle.sb_lexicon.specs.Tokens as lexeme;
ghost use Rattle.sb_operand.specs.Meaning.{plain_pieces, IsDeep, IsSized, ReadsPieces};

use crate::expressions::{Level, within};
use sb_base::Token;
use sb_lexicon::{Feature, Lexicon, ReadFault, is_mark_next, take_mark};
use sb_operand::{
    Piece, Pieces, is_abstract_next, is_call_next, is_parameter_next, no_declarator, pointing,
    qualifiers, room_behind,
};
use sb_sign::Mark;
use sb_tree::Expr;
use std::alloc::Global;

/// What stands between the brackets of an array, how deep it is, and the tokens after it.
#[derive(Drop)]
pub struct Size<'a> {
    pub length: Option<Box<Expr>>,
    pub depth: u32,
    pub rest: &'a [Token],
}

#[cycle(expression)]
#[tactic(auto, unfolding(crate::specs::Readers::pointed, crate::specs::Readers::qualifier))]
fn pointed<'a>(
    alloc: Global,
    lexicon: &Lexicon,
    below: u32,
    room: u32,
    tokens: &'a [Token],
) -> Result<Pieces<'a>, ReadFault>
    requires shallow { below < 200 }
    requires room { room ≤ below }
    ensures read { ReadsPieces (piecewise spec.pointed (meant lexicon.now) below room tokens.now)
        result }
    ensures bounds { IfOk result (λ p. IsSized below (room + 1) p) }
{
    let star = take_mark(lexicon, Mark::Star, tokens)?;
    let constant = qualifiers(lexicon, room, star.rest)?;
    let left = room_behind(room, constant.value);
    let inner = declarator(alloc, lexicon, below, left, constant.rest)?;
    Ok(pointing(inner, constant.value, star.value.place)?)
}

/// What stands behind an opening parenthesis and begins a declarator.
#[cycle(expression)]
#[tactic(auto, unfolding(crate::specs::Readers::inside))]
fn inside<'a>(
    alloc: Global,
    lexicon: &Lexicon,
    opening: Token,
    below: u32,
    room: u32,
    tokens: &'a [Token],
) -> Result<Pieces<'a>, ReadFault>
    requires shallow { below < 200 }
    requires room { room ≤ below }
    ensures read { ReadsPieces
        (piecewise spec.inside (meant lexicon.now) below room opening tokens.now) result }
    ensures bounds { IfOk result (λ p. IsSized below (room + 1) p) }
{
    let inner = declarator(alloc, lexicon, below, room, tokens)?;
    let close = take_mark(lexicon, Mark::CloseParenthesis, inner.rest)?;
    Ok(inner.with(Piece::Grouped(opening.place), 0, close.rest)?)
}

#[cycle(expression)]
#[tactic(auto, unfolding(crate::specs::Readers::in_parentheses))]
fn in_parentheses<'a>(
    alloc: Global,
    lexicon: &Lexicon,
    below: u32,
    room: u32,
    tokens: &'a [Token],
) -> Result<Pieces<'a>, ReadFault>
    requires shallow { below < 200 }
    requires room { room ≤ below }
    ensures read { ReadsPieces
        (piecewise spec.in_parentheses (meant lexicon.now) below room tokens.now) result }
    ensures bounds { IfOk result (λ p. IsSized below (room + 1) p) }
{
    let open = take_mark(lexicon, Mark::OpenParenthesis, tokens)?;
    if is_abstract_next(lexicon, open.rest) {
        return inside(alloc, lexicon, open.value, below, room, open.rest);
    }
    if is_parameter_next(lexicon, open.rest) {
        return Err(ReadFault::lacks(Feature::FunctionPointer, open.rest));
    }
    Err(ReadFault::unexpected(open.rest))
}

/// What stands between the brackets of an array over so many pieces.
#[cycle(expression)]
pub fn sized<'a>(
    alloc: Global,
    lexicon: &Lexicon,
    count: u32,
    below: u32,
    tokens: &'a [Token],
) -> Result<Size<'a>, ReadFault>
    requires shallow { below < 200 }
    requires few { count ≤ below }
    ensures read { ReadsSize (sized (meant lexicon.now)
        (spec.expr_reader (meant lexicon.now) (below - count) level.Assignment) tokens.now) result }
    ensures depth { IfOk result (λ s. s.depth ≤ below - count) }
{
    if is_mark_next(lexicon, Mark::CloseBracket, tokens) {
        return Ok(Size {
            length: None,
            depth: 0,
            rest: tokens,
        });
    }
    let length = within(alloc, lexicon, Level::Assignment, below - count, tokens)?;
    Ok(Size {
        length: Some(length.tree),
        depth: length.depth,
        rest: length.rest,
    })
}

/// One more array.
#[cycle(expression)]
#[tactic(auto, unfolding(crate::specs::Readers::arrayed), using(sb_operand::proofs::Lists::count_of_pieces))]
fn arrayed<'a>(
    alloc: Global,
    lexicon: &Lexicon,
    first: Pieces<'a>,
    below: u32,
    room: u32,
) -> Result<Pieces<'a>, ReadFault>
    requires shallow { below < 200 }
    requires room { room ≤ below }
    requires known { IsDeep first }
    requires bounds { IsSized below (room + 1) first }
    ensures read { ReadsPieces
        (piecewise spec.arrayed (meant lexicon.now) below room (plain_pieces first.entry.list.items)
        first.entry.rest.now) result }
    ensures bounds { IfOk result (λ p. IsSized below (room + 1) p) }
{
    if first.list.len() > room as usize {
        return Err(ReadFault::too_deep(first.rest));
    }
    let count = first.list.len() as u32;
    let open = take_mark(lexicon, Mark::OpenBracket, first.rest)?;
    let size = sized(alloc, lexicon, count, below, open.rest)?;
    let close = take_mark(lexicon, Mark::CloseBracket, size.rest)?;
    let array = Piece::Arrayed(size.length, open.value.place);
    Ok(first.with(array, size.depth, close.rest)?)
}

/// As many arrays as there are.
#[cycle(expression)]
fn arrays<'a>(
    alloc: Global,
    lexicon: &Lexicon,
    first: Pieces<'a>,
    below: u32,
    room: u32,
) -> Result<Pieces<'a>, ReadFault>
    requires shallow { below < 200 }
    requires room { room ≤ below }
    requires known { IsDeep first }
    requires bounds { IsSized below (room + 1) first }
    ensures read { ReadsPieces
        (looped (lexeme.is_open_bracket (meant lexicon.now))
        (piecewise spec.arrayed (meant lexicon.now) below room)
        (plain_pieces first.entry.list.items) first.entry.rest.now) result }
    ensures bounds { IfOk result (λ p. IsSized below (room + 1) p) }
{
    let most = first.rest.len();
    let mut found = first;
    for _turn in 0..most {
        if !is_mark_next(lexicon, Mark::OpenBracket, found.rest) {
            return Ok(found);
        }
        found = arrayed(alloc, lexicon, found, below, room)?;
    }
    Ok(found)
}

/// A declarator in parentheses, if there is one.
#[cycle(expression)]
fn enclosed<'a>(
    alloc: Global,
    lexicon: &Lexicon,
    below: u32,
    room: u32,
    tokens: &'a [Token],
) -> Result<Pieces<'a>, ReadFault>
    requires shallow { below < 200 }
    requires room { room ≤ below }
    ensures read { ReadsPieces (piecewise enclosed (meant lexicon.now) below room tokens.now)
        result }
    ensures bounds { IfOk result (λ p. IsSized below (room + 1) p) }
{
    if !is_mark_next(lexicon, Mark::OpenParenthesis, tokens) {
        return Ok(Pieces::none(alloc, tokens));
    }
    if room == 0 {
        return Err(ReadFault::too_deep(tokens));
    }
    in_parentheses(alloc, lexicon, below, room, tokens)
}

#[cycle(expression)]
#[tactic(auto, unfolding(crate::specs::Readers::direct))]
fn direct<'a>(
    alloc: Global,
    lexicon: &Lexicon,
    below: u32,
    room: u32,
    tokens: &'a [Token],
) -> Result<Pieces<'a>, ReadFault>
    requires shallow { below < 200 }
    requires room { room ≤ below }
    ensures read { ReadsPieces (piecewise spec.direct (meant lexicon.now) below room tokens.now)
        result }
    ensures bounds { IfOk result (λ p. IsSized below (room + 1) p) }
{
    let first = enclosed(alloc, lexicon, below, room, tokens)?;
    let all = arrays(alloc, lexicon, first, below, room)?;
    if is_call_next(lexicon, all.list.as_slice(), all.rest) {
        return Err(ReadFault::lacks(Feature::FunctionPointer, all.rest));
    }
    Ok(all)
}

#[cycle(expression)]
#[tactic(auto, unfolding(crate::specs::Readers::abstract_declarator))]
fn abstract_declarator<'a>(
    alloc: Global,
    lexicon: &Lexicon,
    below: u32,
    room: u32,
    tokens: &'a [Token],
) -> Result<Pieces<'a>, ReadFault>
    requires shallow { below < 200 }
    requires room { room ≤ below }
    ensures read { ReadsPieces
        (piecewise spec.abstract_declarator (meant lexicon.now) below room tokens.now) result }
    ensures bounds { IfOk result (λ p. IsSized below (room + 1) p) }
{
    if is_mark_next(lexicon, Mark::Star, tokens) {
        return pointed(alloc, lexicon, below, room, tokens);
    }
    direct(alloc, lexicon, below, room, tokens)
}

/// A declarator of at most `room` pieces. `below`: how deep the size of an array may be.
#[cycle(expression)]
pub(crate) fn declarator<'a>(
    alloc: Global,
    lexicon: &Lexicon,
    below: u32,
    room: u32,
    tokens: &'a [Token],
) -> Result<Pieces<'a>, ReadFault>
    requires shallow { below < 200 }
    requires room { room ≤ below + 1 }
    ensures read { ReadsPieces (declared (meant lexicon.now) below room 0 tokens.now) result }
    ensures bounds { IfOk result (λ p. IsSized below room p) }
{
    if room == 0 {
        return no_declarator(alloc, lexicon, tokens);
    }
    abstract_declarator(alloc, lexicon, below, room - 1, tokens)
}
