//! Type names: specifiers and a declarator without a name (C99 6.7.6).
ghost use Rattle.std.specs.Prelude.{◌≤◌, ◌<◌, ◌+◌, IfOk};
ghost use Rattle.sb_expr.specs.Meaning.{nested, ReadsType};
ghost use Rattle.sb_lexicon.specs.Meaning.{meant, IsFault};
ghost use Rattle.sb_expr.specs.Readers as spec;

use crate::declarators::declarator;
use sb_base::Token;
use sb_lexicon::{
    Feature, Lexicon, ReadFault, Said, is_complex_next, is_floating_next, is_keyword_next,
    is_type_next, is_union_next,
};
use sb_operand::{Piece, base_type};
use sb_sign::Keyword;
use sb_tree::TypeName;
use std::alloc::Global;

/// A type name: the type of its specifiers, what its declarator puts on it, how deep the whole is, and the tokens after it.
#[derive(Drop)]
pub struct NamedType<'a> {
    pub base: Box<TypeName>,
    pub pieces: Vec<Piece>,
    pub depth: u32,
    pub rest: &'a [Token],
}

#[cycle(expression)]
#[tactic(auto, unfolding(crate::specs::Readers::type_named), using(sb_operand::proofs::PieceDepths::depth_of_typed))]
fn type_named<'a>(
    alloc: Global,
    lexicon: &Lexicon,
    below: u32,
    tokens: &'a [Token],
) -> Result<NamedType<'a>, ReadFault>
    requires shallow { below < 200 }
    ensures read { ReadsType (nested spec.type_named (meant lexicon.now) below tokens.now) result }
    ensures depth { IfOk result (λ t. t.depth ≤ below + 1) }
{
    let base = base_type(alloc, lexicon, below, tokens)?;
    let room = below + 1 - base.depth;
    let pieces = declarator(alloc, lexicon, below, room, base.rest)?;
    let count = pieces.list.len() as u32;
    Ok(NamedType {
        base: base.tree,
        pieces: pieces.list,
        depth: pieces.depth.max(base.depth + count),
        rest: pieces.rest,
    })
}

/// The refusal of a type name for which there is no room.
fn no_room(lexicon: &Lexicon, tokens: &[Token]) -> ReadFault
    ensures { IsFault (spec.no_type (meant lexicon.now) tokens.now) result }
{
    if is_floating_next(lexicon, Said::Nothing, tokens) {
        return ReadFault::lacks(Feature::Floating, tokens);
    }
    if is_union_next(lexicon, Said::Nothing, tokens) {
        return ReadFault::lacks(Feature::Union, tokens);
    }
    if is_keyword_next(lexicon, Keyword::Volatile, tokens) {
        return ReadFault::lacks(Feature::Volatile, tokens);
    }
    if is_complex_next(lexicon, Said::Nothing, tokens) {
        return ReadFault::lacks(Feature::Complex, tokens);
    }
    if is_type_next(lexicon, tokens) {
        return ReadFault::too_deep(tokens);
    }
    ReadFault::unexpected(tokens)
}

/// A type name at most `left` deep.
#[cycle(expression)]
pub fn type_within<'a>(
    alloc: Global,
    lexicon: &Lexicon,
    left: u32,
    tokens: &'a [Token],
) -> Result<NamedType<'a>, ReadFault>
    requires shallow { left ≤ 200 }
    ensures read { ReadsType (spec.type_reader (meant lexicon.now) left tokens.now) result }
    ensures depth { IfOk result (λ t. t.depth ≤ left) }
{
    if left == 0 {
        return Err(no_room(lexicon, tokens));
    }
    type_named(alloc, lexicon, left - 1, tokens)
}
