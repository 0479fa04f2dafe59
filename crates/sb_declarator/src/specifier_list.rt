//! The specifiers of a declaration, with the structures that they define (C99 6.7.2, 6.7.2.1).
ghost use Rattle.std.specs.Prelude.{◌≤◌, ◌<◌, ◌+◌, [], IfOk};
ghost use Rattle.sb_parse.specs.Parser.{looped};
ghost use Rattle.sb_lexicon.specs.Meaning.{GivesAs};
ghost use Rattle.sb_derivation.specs.Meaning.{plain_untyped};
ghost use Rattle.sb_declarator.specs.Meaning.{nested};
ghost use Rattle.sb_specifier.specs.Meaning.{plain_specified, IsKnown, IsRoomy, ReadsSpecifiers};
ghost use Rattle.sb_declarator.specs.Parts as part;
ghost use Rattle.sb_specifier.specs.Readers as spec;
ghost use Rattle.sb_specifier.specs.Specified.{reading, one_if};

use crate::members::members;
use sb_base::{Name, Names, Place, Token};
use sb_derivation::Untyped;
use sb_lexicon::{Read, ReadFault};
use sb_scope::Typedefs;
use sb_sign::{Keyword, Mark};
use sb_specifier::{
    Said, Seat, Specified, completed, enumeration, is_mark_next, is_specifier_next, is_tag_next,
    names_type, past_tag, room_inside, tagged_enumeration, tagless, take_keyword, take_mark,
    take_name, typedef_name,
};
use std::alloc::Global;

// ---- tags

/// The members of a structure between its braces.
#[cycle(declaring)]
fn structure<'a>(
    alloc: Global,
    names: &Names,
    below: u32,
    so_far: Untyped,
    tag: Option<Name>,
    place: Place,
    tokens: &'a [Token],
) -> Result<Read<'a, Specified>, ReadFault>
    requires shallow { below < 200 }
    requires fits { 1 + one_if so_far.constant ≤ below }
    ensures read { GivesAs plain_specified
        (part.structure names.now.texts below (plain_untyped so_far) tag place tokens.now) result }
    ensures known { IfOk result (λ r. IsKnown r.value) }
    ensures fits { IfOk result (λ r. IsRoomy below r.value) }
{
    let left = room_inside(below, so_far.constant);
    if left < 2 {
        return Err(ReadFault::too_deep(tokens));
    }
    let open = take_mark(names, Mark::OpenBrace, tokens)?;
    let found = members(alloc, names, left, so_far.types, open.rest)?;
    let close = take_mark(names, Mark::CloseBrace, found.rest)?;
    Ok(Read {
        value: Specified {
            said: Said::Struct {
                tag,
                members: Some(found.value.list),
                place,
            },
            depth: found.value.depth + 1,
            constant: so_far.constant,
            storage: so_far.storage,
            types: found.value.types,
        },
        rest: close.rest,
    })
}

/// `struct`, its tag, and its members where a brace follows; without a tag a brace has to.
#[cycle(declaring)]
fn tagged_structure<'a>(
    alloc: Global,
    names: &Names,
    below: u32,
    so_far: Untyped,
    tokens: &'a [Token],
) -> Result<Read<'a, Specified>, ReadFault>
    requires shallow { below < 200 }
    requires fits { 1 + one_if so_far.constant ≤ below }
    ensures read { GivesAs plain_specified
        (part.tagged_structure names.now.texts below (plain_untyped so_far) tokens.now) result }
    ensures known { IfOk result (λ r. IsKnown r.value) }
    ensures fits { IfOk result (λ r. IsRoomy below r.value) }
{
    let word = take_keyword(names, Keyword::Struct, tokens)?;
    if is_mark_next(names, Mark::OpenBrace, word.rest) {
        let place = word.value.place;
        return structure(alloc, names, below, so_far, None, place, word.rest);
    }
    let tag = take_name(names, word.rest)?;
    if is_mark_next(names, Mark::OpenBrace, tag.rest) {
        let (name, place) = tag.value;
        return structure(alloc, names, below, so_far, Some(name), place, tag.rest);
    }
    let said = Said::Struct {
        tag: Some(tag.value.0),
        members: None,
        place: tag.value.1,
    };
    Ok(Read {
        value: so_far.saying(said),
        rest: tag.rest,
    })
}

// ---- all specifiers

/// One specifier that begins with a keyword.
#[cycle(declaring)]
#[tactic(auto, unfolding(sb_specifier::specs::Readers::specified, sb_specifier::specs::Readers::tagged, sb_specifier::specs::Readers::structure, sb_specifier::specs::Readers::enumeration, sb_specifier::specs::Readers::items, sb_specifier::specs::Readers::item, sb_specifier::specs::Readers::item_value, sb_specifier::specs::Readers::comma_behind, sb_specifier::specs::Readers::tagless, sb_specifier::specs::Readers::past_tag))]
fn specified<'a>(
    alloc: Global,
    names: &Names,
    seat: Seat,
    below: u32,
    so_far: Specified,
    tokens: &'a [Token],
) -> Result<Read<'a, Specified>, ReadFault>
    requires shallow { below < 200 }
    requires known { IsKnown so_far }
    requires fits { IsRoomy below so_far }
    ensures read { GivesAs plain_specified
        (nested spec.specified names.now.texts seat below (plain_specified so_far) tokens.now)
        result }
    ensures known { IfOk result (λ r. IsKnown r.value) }
    ensures fits { IfOk result (λ r. IsRoomy below r.value) }
{
    if is_tag_next(names, Keyword::Struct, &so_far.said, tokens) {
        return tagged_structure(alloc, names, below, Untyped::of(so_far), tokens);
    }
    if is_tag_next(names, Keyword::Enum, &so_far.said, tokens) {
        return tagged_enumeration(alloc, names, below, so_far, tokens);
    }
    let found = tagless(names, seat, below, so_far, tokens)?;
    past_tag(names, found)
}

/// As many specifiers that begin with a keyword as there are.
#[cycle(declaring)]
fn keyword_specifiers<'a>(
    alloc: Global,
    names: &Names,
    seat: Seat,
    below: u32,
    first: Specified,
    tokens: &'a [Token],
) -> Result<Read<'a, Specified>, ReadFault>
    requires shallow { below < 200 }
    requires known { IsKnown first }
    requires fits { IsRoomy below first }
    ensures read { GivesAs plain_specified
        (looped (spec.is_specifier_word (reading names.now.texts []))
        (nested spec.specified names.now.texts seat below) (plain_specified first) tokens.now)
        result }
    ensures known { IfOk result (λ r. IsKnown r.value) }
    ensures fits { IfOk result (λ r. IsRoomy below r.value) }
{
    let mut found = Read {
        value: first,
        rest: tokens,
    };
    for _turn in 0..tokens.len() {
        if !is_specifier_next(names, found.rest) {
            return Ok(found);
        }
        found = specified(alloc, names, seat, below, found.value, found.rest)?;
    }
    Ok(found)
}

/// A typedef name where no type is named so far, and the specifiers behind it.
#[cycle(declaring)]
#[tactic(auto, unfolding(sb_specifier::specs::Readers::defined, sb_specifier::specs::Readers::keyword_specifiers))]
fn defined<'a>(
    alloc: Global,
    names: &Names,
    seat: Seat,
    below: u32,
    so_far: Specified,
    tokens: &'a [Token],
) -> Result<Read<'a, Specified>, ReadFault>
    requires shallow { below < 200 }
    requires known { IsKnown so_far }
    requires fits { IsRoomy below so_far }
    ensures read { GivesAs plain_specified
        (nested spec.defined names.now.texts seat below (plain_specified so_far) tokens.now)
        result }
    ensures known { IfOk result (λ r. IsKnown r.value) }
    ensures fits { IfOk result (λ r. IsRoomy below r.value) }
{
    if !names_type(names, &so_far, tokens) {
        return Ok(Read {
            value: so_far,
            rest: tokens,
        });
    }
    let name = typedef_name(names, so_far, tokens)?;
    keyword_specifiers(alloc, names, seat, below, name.value, name.rest)
}

/// All specifiers of a declaration, where these typedef names are in force.
#[cycle(declaring)]
#[tactic(auto, unfolding(sb_specifier::specs::Readers::specifiers, sb_specifier::specs::Readers::keyword_specifiers))]
pub fn specifiers<'a>(
    alloc: Global,
    names: &Names,
    seat: Seat,
    below: u32,
    types: &Typedefs,
    tokens: &'a [Token],
) -> Result<Read<'a, Specified>, ReadFault>
    requires shallow { below < 200 }
    requires some { 1 ≤ below }
    ensures read { ReadsSpecifiers
        (nested spec.specifiers names.now.texts seat below types.now tokens.now) result }
    ensures known { IfOk result (λ r. IsKnown r.value) }
    ensures fits { IfOk result (λ r. IsRoomy below r.value) }
{
    let none = Specified::none(types.clone()?);
    let words = keyword_specifiers(alloc, names, seat, below, none, tokens)?;
    let all = defined(alloc, names, seat, below, words.value, words.rest)?;
    completed(all)
}
