//! Tags of enumerations and structures (C99 6.7.2.3).
ghost use Rattle.std.specs.Prelude.{◌≡◌, ◌<◌, ◌&&◌, IfOk};
ghost use Rattle.sb_parse.specs.Parser.{at_next};
ghost use Rattle.sb_lexicon.specs.Meaning.{GivesAs};
ghost use Rattle.sb_lexicon.specs.Words.{is_nothing};
ghost use Rattle.sb_sign.specs.declared.sign.Mark.TheVariants as mark;
ghost use Rattle.sb_sign.specs.Signs as sign;
ghost use Rattle.sb_specifier.specs.Meaning.{plain_said, plain_specified, IsKnown, IsRoomy};
ghost use Rattle.sb_specifier.specs.Parts as part;
ghost use Rattle.sb_specifier.specs.Specified.{is_tag_alone};

use crate::enumerations::enumeration;
use crate::specified::{Said, Specified};
use crate::tokens::{is_mark_next, take_keyword, take_name};
use crate::words::word;
use sb_base::{Names, Token};
use sb_lexicon::{Read, ReadFault};
use sb_sign::{Keyword, Mark, is_keyword};
use std::alloc::Global;

// ---- the next token

/// Whether a structure or an enumeration begins here, where no type is named so far.
pub fn is_tag_next(names: &Names, word: Keyword, said: &Said, tokens: &[Token]) -> bool
    ensures { result ≡ at_next
        (λ t. sign.is_keyword names.now.texts word t && is_nothing (plain_said said.now))
        tokens.now }
{
    match tokens.first() {
        Some(token) => is_keyword(names, word, token) && said.is_nothing(),
        None => false,
    }
}

/// Whether a brace comes next that would define what a tag behind other specifiers names.
fn opens_tag(names: &Names, said: &Said, tokens: &[Token]) -> bool
    ensures { result ≡ at_next
        (λ t. is_tag_alone (plain_said said.now) && sign.is_mark names.now.texts mark.OpenBrace t)
        tokens.now }
{
    said.is_tag_alone() && is_mark_next(names, Mark::OpenBrace, tokens)
}

// ---- one specifier

/// Refused where a brace follows a tag and later specifiers.
pub fn past_tag<'a>(
    names: &Names,
    found: Read<'a, Specified>,
) -> Result<Read<'a, Specified>, ReadFault>
    ensures read { GivesAs plain_specified
        (part.past_tag names.now.texts (plain_specified found.entry.value) found.entry.rest.now)
        result }
    ensures same { IfOk result (λ r. r.value ≡ found.entry.value) }
{
    if opens_tag(names, &found.value.said, found.rest) {
        return Err(ReadFault::unexpected(found.rest));
    }
    Ok(found)
}

// ---- tags

/// `enum`, its tag, and its constants where a brace follows; without a tag a brace has to.
pub fn tagged_enumeration<'a>(
    alloc: Global,
    names: &Names,
    below: u32,
    so_far: Specified,
    tokens: &'a [Token],
) -> Result<Read<'a, Specified>, ReadFault>
    requires shallow { below < 200 }
    requires fits { IsRoomy below so_far }
    ensures read { GivesAs plain_specified
        (part.tagged_enumeration names.now.texts below (plain_specified so_far) tokens.now) result }
    ensures known { IfOk result (λ r. IsKnown r.value) }
    ensures fits { IfOk result (λ r. IsRoomy below r.value) }
{
    let word = take_keyword(names, Keyword::Enum, tokens)?;
    if is_mark_next(names, Mark::OpenBrace, word.rest) {
        let place = word.value.place;
        return enumeration(alloc, names, below, so_far, None, place, word.rest);
    }
    let tag = take_name(names, word.rest)?;
    if is_mark_next(names, Mark::OpenBrace, tag.rest) {
        let (name, place) = tag.value;
        return enumeration(alloc, names, below, so_far, Some(name), place, tag.rest);
    }
    let said = Said::Enum {
        tag: Some(tag.value.0),
        items: None,
        place: tag.value.1,
    };
    Ok(Read {
        value: so_far.saying(said),
        rest: tag.rest,
    })
}
