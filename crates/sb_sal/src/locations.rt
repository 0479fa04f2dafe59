//! What an annotation can be moved to: a parameter, what it points to, a member of that, or the result.
ghost use Rattle.std.specs.Prelude.{◌≡◌, ◌≤◌, nat_lt, IfOk};
ghost use Rattle.sb_parse.specs.Parser.{guard, taken};
ghost use Rattle.sb_lexicon.specs.Meaning.{meant};
ghost use Rattle.sb_lexicon.specs.Tokens as expr;
ghost use Rattle.sb_sal.specs.Meaning.{IsLocationKnown, ReadsLocation};
ghost use Rattle.sb_sal.specs.Parts as part;
ghost use Rattle.sb_sal.specs.Readers as spec;
ghost use Rattle.sb_tree.specs.Plain.{plain_expr};
ghost use Rattle.sb_tree.specs.Trees as tree;

use crate::lexemes::{
    is_continued, is_operand_next, is_other_next, is_place_name_next, place_name,
};
use crate::trees::Location;
use sb_base::Token;
use sb_lexicon::{
    Lexicon, Read, ReadFault, Reason, is_keyword_next, is_mark_next, take_keyword, take_mark,
    take_member,
};
use sb_sign::{Keyword, Mark};
use sb_tree::{Expr, UnaryOp};
use std::alloc::Global;

/// A location of so many tokens, unless the expression goes on.
fn ended<'a>(lexicon: &Lexicon, count: u8, found: Location<'a>) -> Result<Location<'a>, ReadFault>
    requires known { IsLocationKnown found }
    ensures read { ReadsLocation
        (spec.ending (meant lexicon.now) count (plain_expr found.entry.tree) found.entry.rest.now)
        result }
    ensures depth { IfOk result (λ l. l.depth ≡ found.entry.depth) }
{
    if is_continued(lexicon, found.rest) {
        return Err(ReadFault::at(Reason::ArgumentBefore(count), found.rest));
    }
    Ok(found)
}

/// A word as a location of its own.
pub(crate) fn ended_word<'a>(
    lexicon: &Lexicon,
    word: Read<'a, Token>,
) -> Result<Location<'a>, ReadFault>
    ensures read { ReadsLocation
        (spec.ending (meant lexicon.now) 1
        (tree.Identifier word.entry.value.text word.entry.value.place) word.entry.rest.now) result }
    ensures depth { IfOk result (λ l. l.depth ≡ 1) }
{
    let found = Location {
        tree: Expr::name(word.value.text, word.value.place),
        depth: 1,
        rest: word.rest,
    };
    ended(lexicon, 1, found)
}

/// The result.
fn returned<'a>(lexicon: &Lexicon, tokens: &'a [Token]) -> Result<Location<'a>, ReadFault>
    ensures read { ReadsLocation (part.result (meant lexicon.now) tokens.now) result }
    ensures depth { IfOk result (λ l. l.depth ≡ 1) }
{
    let word = take_keyword(lexicon, Keyword::Return, tokens)?;
    ended_word(lexicon, word)
}

/// A name that is no annotation's.
fn take_named<'a>(lexicon: &Lexicon, tokens: &'a [Token]) -> Result<Location<'a>, ReadFault>
    ensures read { ReadsLocation (taken expr.unexpected (spec.named (meant lexicon.now)) tokens.now)
        result }
    ensures depth { IfOk result (λ l. l.depth ≡ 1) }
{
    let Some((token, rest)) = tokens.split_first() else {
        return Err(ReadFault::at_end());
    };
    match place_name(lexicon, token) {
        Some(name) => Ok(Location {
            tree: Expr::name(name, token.place),
            depth: 1,
            rest,
        }),
        None => Err(ReadFault::unexpected(tokens)),
    }
}

/// A member of what a parameter points to.
fn field<'a>(alloc: Global, lexicon: &Lexicon, of: Location<'a>) -> Result<Location<'a>, ReadFault>
    requires known { IsLocationKnown of }
    requires flat { of.depth ≡ 1 }
    ensures read { ReadsLocation
        (part.field (meant lexicon.now) (plain_expr of.entry.tree) of.entry.rest.now) result }
    ensures depth { IfOk result (λ l. l.depth ≡ 2) }
{
    let parameter = Box::new(alloc, of.tree)?;
    let arrow = take_mark(lexicon, Mark::Arrow, of.rest)?;
    let name = take_member(lexicon, arrow.rest)?;
    let (member, member_place) = name.value;
    let found = Location {
        tree: Expr::member(parameter, true, member, member_place, arrow.value.place),
        depth: of.depth + 1,
        rest: name.rest,
    };
    ended(lexicon, 3, found)
}

/// A member of what a parameter points to, where there is room for it.
fn field_within<'a>(
    alloc: Global,
    lexicon: &Lexicon,
    below: u32,
    of: Location<'a>,
) -> Result<Location<'a>, ReadFault>
    requires known { IsLocationKnown of }
    requires flat { of.depth ≡ 1 }
    ensures read { ReadsLocation
        (guard (nat_lt below 2) expr.too_deep
        (part.field (meant lexicon.now) (plain_expr of.entry.tree)) of.entry.rest.now) result }
    ensures depth { IfOk result (λ l. l.depth ≤ below) }
{
    if below < 2 {
        return Err(ReadFault::too_deep(of.rest));
    }
    field(alloc, lexicon, of)
}

/// A parameter, or a member of what it points to.
#[tactic(auto, unfolding(crate::specs::Readers::parameter, crate::specs::Readers::field))]
fn parameter<'a>(
    alloc: Global,
    lexicon: &Lexicon,
    below: u32,
    tokens: &'a [Token],
) -> Result<Location<'a>, ReadFault>
    requires some { 1 ≤ below }
    ensures read { ReadsLocation (spec.parameter (meant lexicon.now) below tokens.now) result }
    ensures depth { IfOk result (λ l. l.depth ≤ below) }
{
    let named = take_named(lexicon, tokens)?;
    if !is_mark_next(lexicon, Mark::Arrow, named.rest) {
        return ended(lexicon, 1, named);
    }
    field_within(alloc, lexicon, below, named)
}

/// What a parameter points to.
fn target<'a>(
    alloc: Global,
    lexicon: &Lexicon,
    tokens: &'a [Token],
) -> Result<Location<'a>, ReadFault>
    ensures read { ReadsLocation (part.target (meant lexicon.now) tokens.now) result }
    ensures depth { IfOk result (λ l. l.depth ≡ 2) }
{
    let star = take_mark(lexicon, Mark::Star, tokens)?;
    if is_place_name_next(lexicon, star.rest) {
        let named = take_named(lexicon, star.rest)?;
        let parameter = Box::new(alloc, named.tree)?;
        let found = Location {
            tree: Expr::unary(UnaryOp::Deref, parameter, star.value.place),
            depth: named.depth + 1,
            rest: named.rest,
        };
        return ended(lexicon, 2, found);
    }
    if is_operand_next(lexicon, star.rest) {
        return Err(ReadFault::at(Reason::ArgumentBefore(1), star.rest));
    }
    Err(ReadFault::unexpected(star.rest))
}

#[tactic(auto, unfolding(crate::specs::Readers::location, crate::specs::Readers::result, crate::specs::Readers::target))]
pub(crate) fn location<'a>(
    alloc: Global,
    lexicon: &Lexicon,
    below: u32,
    tokens: &'a [Token],
) -> Result<Location<'a>, ReadFault>
    requires some { 1 ≤ below }
    ensures read { ReadsLocation (spec.location (meant lexicon.now) below tokens.now) result }
    ensures depth { IfOk result (λ l. l.depth ≤ below) }
{
    if is_keyword_next(lexicon, Keyword::Return, tokens) {
        return returned(lexicon, tokens);
    }
    if is_place_name_next(lexicon, tokens) {
        return parameter(alloc, lexicon, below, tokens);
    }
    if is_mark_next(lexicon, Mark::Star, tokens) {
        if below < 2 {
            return Err(ReadFault::too_deep(tokens));
        }
        return target(alloc, lexicon, tokens);
    }
    if is_other_next(lexicon, tokens) {
        return Err(ReadFault::at(Reason::Arguments, tokens));
    }
    Err(ReadFault::unexpected(tokens))
}
