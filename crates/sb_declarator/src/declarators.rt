//! Declarators (C99 6.7.5).
ghost use Rattle.std.specs.Prelude.{◌≡◌, ◌≤◌, ◌<◌, true, IfOk};
ghost use Rattle.sb_parse.specs.Parser.{looped};
ghost use Rattle.sb_operand.specs.Meaning.{plain_pieces};
ghost use Rattle.sb_lexicon.specs.Meaning.{meant};
ghost use Rattle.sb_derivation.specs.Declarators.{plain_declarator, is_suffix, IsDeep, IsSized, ReadsDeclarator};
ghost use Rattle.sb_declarator.specs.Declarators.{roomy};
ghost use Rattle.sb_declarator.specs.Declarators as part;
ghost use Rattle.sb_declarator.specs.Readers as spec;
ghost use Rattle.sb_declarator.specs.Readers.{parts};
ghost use Rattle.sb_specifier.specs.Specified as specified;

use crate::parameters::parameters;
use sb_base::Token;
use sb_derivation::{
    Declarator, array_piece, is_bare, is_function, is_inner_next, is_outermost, is_parameter_next,
    is_suffix_next, name_or_none,
};
use sb_lexicon::{Feature, Lexicon, Read, ReadFault, is_mark_next, take_mark};
use sb_operand::{Piece, points, qualifiers, room_behind};
use sb_sign::Mark;
use std::alloc::Global;

// ---- readers

/// What stands behind an opening parenthesis and begins a declarator.
#[cycle(declaring)]
#[tactic(auto, unfolding(crate::specs::Readers::inside), using(crate::proofs::steps::Declarators::some_room))]
fn inside<'a>(
    alloc: Global,
    lexicon: &Lexicon,
    functions: bool,
    may_lack: bool,
    below: u32,
    room: u32,
    opening: Read<'a, Token>,
) -> Result<Read<'a, Declarator>, ReadFault>
    requires shallow { below < 200 }
    requires room { room ≤ below }
    requires some { 1 ≤ room }
    ensures read { ReadsDeclarator lexicon.now.types.now
        (roomy spec.inside (meant lexicon.now) functions may_lack below room opening.entry.value
        opening.entry.rest.now) result }
    ensures bounds { IfOk result (λ r. IsSized below room r.value) }
{
    let inner = declarator_within(
        alloc,
        lexicon,
        functions,
        may_lack,
        below,
        room - 1,
        opening.rest,
    )?;
    let close = take_mark(lexicon, Mark::CloseParenthesis, inner.rest)?;
    Ok(Read {
        value: inner.value.with(Piece::Grouped(opening.value.place), 0)?,
        rest: close.rest,
    })
}

/// A declarator in parentheses.
#[cycle(declaring)]
#[tactic(auto, unfolding(crate::specs::Readers::in_parentheses))]
fn in_parentheses<'a>(
    alloc: Global,
    lexicon: &Lexicon,
    functions: bool,
    may_lack: bool,
    below: u32,
    room: u32,
    tokens: &'a [Token],
) -> Result<Read<'a, Declarator>, ReadFault>
    requires shallow { below < 200 }
    requires room { room ≤ below }
    requires some { 1 ≤ room }
    ensures read { ReadsDeclarator lexicon.now.types.now
        (roomy spec.in_parentheses (meant lexicon.now) functions may_lack below room tokens.now)
        result }
    ensures bounds { IfOk result (λ r. IsSized below room r.value) }
{
    let open = take_mark(lexicon, Mark::OpenParenthesis, tokens)?;
    if !may_lack {
        return inside(alloc, lexicon, functions, may_lack, below, room, open);
    }
    if is_inner_next(lexicon, open.rest) {
        return inside(alloc, lexicon, functions, may_lack, below, room, open);
    }
    if is_parameter_next(lexicon, open.rest) {
        return Err(ReadFault::lacks(Feature::FunctionPointer, open.rest));
    }
    Err(ReadFault::unexpected(open.rest))
}

/// The name, or a declarator in parentheses.
#[cycle(declaring)]
#[tactic(auto, unfolding(crate::specs::Readers::first, crate::specs::Readers::name_or_none))]
pub(crate) fn first<'a>(
    alloc: Global,
    lexicon: &Lexicon,
    functions: bool,
    may_lack: bool,
    below: u32,
    room: u32,
    tokens: &'a [Token],
) -> Result<Read<'a, Declarator>, ReadFault>
    requires shallow { below < 200 }
    requires room { room ≤ below }
    ensures read { ReadsDeclarator lexicon.now.types.now
        (roomy spec.first (meant lexicon.now) functions may_lack below room tokens.now) result }
    ensures bounds { IfOk result (λ r. IsSized below room r.value) }
{
    if !is_mark_next(lexicon, Mark::OpenParenthesis, tokens) {
        return name_or_none(alloc, lexicon, may_lack, tokens);
    }
    if room == 0 {
        return Err(ReadFault::too_deep(tokens));
    }
    in_parentheses(alloc, lexicon, functions, may_lack, below, room, tokens)
}

/// One more array.
#[tactic(auto, unfolding(crate::specs::Readers::arrayed, crate::specs::Readers::sized, crate::specs::Readers::size, crate::specs::Readers::size_word, crate::specs::Readers::outermost_size), using(sb_operand::proofs::Lists::count_of_pieces))]
fn arrayed<'a>(
    alloc: Global,
    lexicon: &Lexicon,
    functions: bool,
    may_lack: bool,
    below: u32,
    room: u32,
    so_far: Read<'a, Declarator>,
) -> Result<Read<'a, Declarator>, ReadFault>
    requires shallow { below < 200 }
    requires room { room ≤ below }
    requires known { IsDeep so_far.value }
    requires bounds { IsSized below room so_far.value }
    ensures read { ReadsDeclarator lexicon.now.types.now
        (roomy spec.arrayed (meant lexicon.now) functions may_lack below room
        (plain_declarator lexicon.now.types.now so_far.entry.value) so_far.entry.rest.now) result }
    ensures bounds { IfOk result (λ r. IsSized below room r.value) }
{
    if so_far.value.pieces.len() >= room as usize {
        return Err(ReadFault::too_deep(so_far.rest));
    }
    let count = so_far.value.pieces.len() as u32;
    let outermost = is_outermost(may_lack, so_far.value.pieces.as_slice());
    let array = array_piece(alloc, lexicon, outermost, count, below, so_far.rest)?;
    Ok(Read {
        value: so_far.value.with(array.piece, array.depth)?,
        rest: array.rest,
    })
}

/// A function.
#[cycle(declaring)]
#[tactic(auto, unfolding(crate::specs::Readers::called), using(sb_operand::proofs::Lists::count_of_pieces))]
fn called<'a>(
    alloc: Global,
    lexicon: &Lexicon,
    functions: bool,
    may_lack: bool,
    below: u32,
    room: u32,
    so_far: Read<'a, Declarator>,
) -> Result<Read<'a, Declarator>, ReadFault>
    requires shallow { below < 200 }
    requires room { room ≤ below }
    requires known { IsDeep so_far.value }
    requires bounds { IsSized below room so_far.value }
    requires bare { specified.is_bare (plain_pieces so_far.value.pieces.items) ≡ true }
    ensures read { ReadsDeclarator lexicon.now.types.now
        (roomy spec.called (meant lexicon.now) functions may_lack below room
        (plain_declarator lexicon.now.types.now so_far.entry.value) so_far.entry.rest.now) result }
    ensures bounds { IfOk result (λ r. IsSized below room r.value) }
{
    if so_far.value.pieces.len() >= room as usize {
        return Err(ReadFault::too_deep(so_far.rest));
    }
    let before = so_far.value;
    let count = before.pieces.len() as u32;
    let open = take_mark(lexicon, Mark::OpenParenthesis, so_far.rest)?;
    let params = parameters(alloc, lexicon, below, count, open.rest)?;
    let close = take_mark(lexicon, Mark::CloseParenthesis, params.rest)?;
    let listed = params.value;
    let function = Piece::Called(listed.list, open.value.place);
    let whole = before.with(function, listed.depth)?;
    Ok(Read {
        value: Declarator {
            pieces: whole.pieces,
            depth: whole.depth,
            name: whole.name,
            inner: Some(listed.types),
        },
        rest: close.rest,
    })
}

/// One more array, or a function.
#[cycle(declaring)]
#[tactic(auto, unfolding(crate::specs::Readers::suffixed))]
fn suffixed<'a>(
    alloc: Global,
    lexicon: &Lexicon,
    functions: bool,
    may_lack: bool,
    below: u32,
    room: u32,
    so_far: Read<'a, Declarator>,
) -> Result<Read<'a, Declarator>, ReadFault>
    requires shallow { below < 200 }
    requires room { room ≤ below }
    requires known { IsDeep so_far.value }
    requires bounds { IsSized below room so_far.value }
    ensures read { ReadsDeclarator lexicon.now.types.now
        (roomy spec.suffixed (meant lexicon.now) functions may_lack below room
        (plain_declarator lexicon.now.types.now so_far.entry.value) so_far.entry.rest.now) result }
    ensures bounds { IfOk result (λ r. IsSized below room r.value) }
{
    if is_mark_next(lexicon, Mark::OpenBracket, so_far.rest) {
        if is_function(so_far.value.pieces.as_slice()) {
            return Err(ReadFault::unexpected(so_far.rest));
        }
        return arrayed(alloc, lexicon, functions, may_lack, below, room, so_far);
    }
    let bare = is_bare(so_far.value.pieces.as_slice());
    if bare && functions {
        return called(alloc, lexicon, functions, may_lack, below, room, so_far);
    }
    if bare || points(so_far.value.pieces.as_slice()) {
        return Err(ReadFault::lacks(Feature::FunctionPointer, so_far.rest));
    }
    Err(ReadFault::unexpected(so_far.rest))
}

/// As many arrays and functions as there are.
#[cycle(declaring)]
fn suffixes<'a>(
    alloc: Global,
    lexicon: &Lexicon,
    functions: bool,
    may_lack: bool,
    below: u32,
    room: u32,
    first: Read<'a, Declarator>,
) -> Result<Read<'a, Declarator>, ReadFault>
    requires shallow { below < 200 }
    requires room { room ≤ below }
    requires known { IsDeep first.value }
    requires bounds { IsSized below room first.value }
    ensures read { ReadsDeclarator lexicon.now.types.now
        (looped (is_suffix (meant lexicon.now))
        (roomy spec.suffixed (meant lexicon.now) functions may_lack below room)
        (plain_declarator lexicon.now.types.now first.entry.value) first.entry.rest.now) result }
    ensures bounds { IfOk result (λ r. IsSized below room r.value) }
{
    let most = first.rest.len();
    let mut found = first;
    for _turn in 0..most {
        if !is_suffix_next(lexicon, found.rest) {
            return Ok(found);
        }
        found = suffixed(alloc, lexicon, functions, may_lack, below, room, found)?;
    }
    Ok(found)
}

#[cycle(declaring)]
#[tactic(auto, unfolding(crate::specs::Readers::direct))]
fn direct<'a>(
    alloc: Global,
    lexicon: &Lexicon,
    functions: bool,
    may_lack: bool,
    below: u32,
    room: u32,
    tokens: &'a [Token],
) -> Result<Read<'a, Declarator>, ReadFault>
    requires shallow { below < 200 }
    requires room { room ≤ below }
    ensures read { ReadsDeclarator lexicon.now.types.now
        (roomy spec.direct (meant lexicon.now) functions may_lack below room tokens.now) result }
    ensures bounds { IfOk result (λ r. IsSized below room r.value) }
{
    let first = first(alloc, lexicon, functions, may_lack, below, room, tokens)?;
    suffixes(alloc, lexicon, functions, may_lack, below, room, first)
}

/// A pointer, and what it stands before.
#[cycle(declaring)]
fn pointed<'a>(
    alloc: Global,
    lexicon: &Lexicon,
    functions: bool,
    may_lack: bool,
    below: u32,
    room: u32,
    tokens: &'a [Token],
) -> Result<Read<'a, Declarator>, ReadFault>
    requires shallow { below < 200 }
    requires room { room ≤ below }
    requires some { 1 ≤ room }
    ensures read { ReadsDeclarator lexicon.now.types.now
        (part.pointed (meant lexicon.now) functions may_lack below room tokens.now) result }
    ensures bounds { IfOk result (λ r. IsSized below room r.value) }
{
    let star = take_mark(lexicon, Mark::Star, tokens)?;
    let constant = qualifiers(lexicon, room - 1, star.rest)?;
    let left = room_behind(room - 1, constant.value);
    let inner = declarator_within(
        alloc,
        lexicon,
        functions,
        may_lack,
        below,
        left,
        constant.rest,
    )?;
    Ok(Read {
        value: inner.value.pointing(constant.value, star.value.place)?,
        rest: inner.rest,
    })
}

#[cycle(declaring)]
#[tactic(auto, unfolding(crate::specs::Readers::declarator_at), using(crate::proofs::steps::Declarators::pointed_by))]
fn declarator_at<'a>(
    alloc: Global,
    lexicon: &Lexicon,
    functions: bool,
    may_lack: bool,
    below: u32,
    room: u32,
    tokens: &'a [Token],
) -> Result<Read<'a, Declarator>, ReadFault>
    requires shallow { below < 200 }
    requires room { room ≤ below }
    ensures read { ReadsDeclarator lexicon.now.types.now
        (roomy spec.declarator_at (meant lexicon.now) functions may_lack below room tokens.now)
        result }
    ensures bounds { IfOk result (λ r. IsSized below room r.value) }
{
    if !is_mark_next(lexicon, Mark::Star, tokens) {
        return direct(alloc, lexicon, functions, may_lack, below, room, tokens);
    }
    if room == 0 {
        return Err(ReadFault::too_deep(tokens));
    }
    pointed(alloc, lexicon, functions, may_lack, below, room, tokens)
}

/// A declarator of at most `room` pieces. `functions`: a function may be declared; `may_lack`: the name may be left out;
/// `below`: how deep the type may be.
#[cycle(declaring)]
pub fn declarator_within<'a>(
    alloc: Global,
    lexicon: &Lexicon,
    functions: bool,
    may_lack: bool,
    below: u32,
    room: u32,
    tokens: &'a [Token],
) -> Result<Read<'a, Declarator>, ReadFault>
    requires shallow { below < 200 }
    requires room { room ≤ below }
    ensures read { ReadsDeclarator lexicon.now.types.now
        (spec.declarators (meant lexicon.now) functions may_lack below
        (parts lexicon.now.names.now.texts below) room 0 tokens.now) result }
    ensures bounds { IfOk result (λ r. IsSized below room r.value) }
{
    declarator_at(alloc, lexicon, functions, may_lack, below, room, tokens)
}
