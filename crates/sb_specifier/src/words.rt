//! Specifiers of one word: of storage and of types, qualifiers and typedef names (C99 6.7.1 to 6.7.4, 6.7.7).
ghost use Rattle.std.specs.Prelude.{◌≡◌, [], IfOk};
ghost use Rattle.sb_parse.specs.Parser.{at_next, taken};
ghost use Rattle.sb_lexicon.specs.Meaning.{GivesAs};
ghost use Rattle.sb_lexicon.specs.SpecifierReaders as expr;
ghost use Rattle.sb_lexicon.specs.Tokens as lexeme;
ghost use Rattle.sb_specifier.specs.Meaning.{plain_said, plain_specified, IsKnown, IsRoomy, ReadsSpecifiers};
ghost use Rattle.sb_specifier.specs.Parts as part;
ghost use Rattle.sb_specifier.specs.Readers as spec;
ghost use Rattle.sb_specifier.specs.Specified.{base_of, reading};

use crate::seat::Seat;
use crate::specified::{Said, Specified, is_structure, storage_in};
use crate::tokens::{is_keyword_next, is_storage_next, take_keyword};
use sb_base::{Names, Token};
use sb_lexicon::{Feature, Lexicon, Read, ReadFault, is_type_name_next};
use sb_sign::{Keyword, is_keyword, keyword_of};

// ---- the next token

fn is_floating_next(names: &Names, said: &Said, tokens: &[Token]) -> bool
    ensures { result ≡ at_next (expr.is_floating (reading names.now.texts []) (plain_said said.now))
        tokens.now }
{
    match tokens.first() {
        Some(token) => {
            is_keyword(names, Keyword::Float, token) && said.is_nothing()
                || is_keyword(names, Keyword::Double, token) && said.may_be_floating()
        }
        None => false,
    }
}

fn is_union_next(names: &Names, said: &Said, tokens: &[Token]) -> bool
    ensures { result ≡ at_next (expr.is_union (reading names.now.texts []) (plain_said said.now))
        tokens.now }
{
    match tokens.first() {
        Some(token) => is_keyword(names, Keyword::Union, token) && said.is_nothing(),
        None => false,
    }
}

fn is_complex_next(names: &Names, said: &Said, tokens: &[Token]) -> bool
    ensures { result ≡ at_next (expr.is_complex (reading names.now.texts []) (plain_said said.now))
        tokens.now }
{
    match tokens.first() {
        Some(token) => {
            (is_keyword(names, Keyword::Complex, token)
                || is_keyword(names, Keyword::Imaginary, token))
                && said.may_be_floating()
        }
        None => false,
    }
}

/// Whether `inline` comes next where it may stand.
fn is_inline_next(names: &Names, seat: Seat, tokens: &[Token]) -> bool
    ensures { result ≡ at_next (part.is_inline names.now.texts seat) tokens.now }
{
    match tokens.first() {
        Some(token) => is_keyword(names, Keyword::Inline, token) && !is_structure(seat),
        None => false,
    }
}

/// Whether a typedef name comes next where no type is named so far.
pub fn names_type(names: &Names, so_far: &Specified, tokens: &[Token]) -> bool
    ensures { result ≡ at_next (part.names_type names.now.texts (plain_specified so_far.now))
        tokens.now }
{
    let lexicon = Lexicon {
        names,
        types: &so_far.types,
        in_note: false,
    };
    so_far.said.is_nothing() && is_type_name_next(&lexicon, tokens)
}

// ---- one specifier

/// One more word of an arithmetic type.
pub(crate) fn word<'a>(
    names: &Names,
    so_far: Specified,
    tokens: &'a [Token],
) -> Result<Read<'a, Specified>, ReadFault>
    ensures read { GivesAs plain_specified
        (taken lexeme.unexpected
        (spec.word_after (reading names.now.texts []) (plain_specified so_far)) tokens.now) result }
    ensures known { IfOk result (λ r. IsKnown r.value) }
    ensures depth { IfOk result (λ r. r.value.depth ≡ 1) }
    ensures same { IfOk result (λ r. r.value.constant ≡ so_far.constant) }
{
    let Some((token, rest)) = tokens.split_first() else {
        return Err(ReadFault::at_end());
    };
    let Some(word) = keyword_of(names, token) else {
        return Err(ReadFault::unexpected(tokens));
    };
    match so_far.said.with_word(word, token.place) {
        Some((words, place)) => Ok(Read {
            value: so_far.saying(Said::Words(words, place)),
            rest,
        }),
        None => Err(ReadFault::unexpected(tokens)),
    }
}

/// A word of an arithmetic type, or one that is left out.
fn word_or_lacking<'a>(
    names: &Names,
    so_far: Specified,
    tokens: &'a [Token],
) -> Result<Read<'a, Specified>, ReadFault>
    ensures read { GivesAs plain_specified
        (part.word_or_lacking names.now.texts (plain_specified so_far) tokens.now) result }
    ensures known { IfOk result (λ r. IsKnown r.value) }
    ensures depth { IfOk result (λ r. r.value.depth ≡ 1) }
    ensures same { IfOk result (λ r. r.value.constant ≡ so_far.constant) }
{
    if is_floating_next(names, &so_far.said, tokens) {
        return Err(ReadFault::lacks(Feature::Floating, tokens));
    }
    if is_union_next(names, &so_far.said, tokens) {
        return Err(ReadFault::lacks(Feature::Union, tokens));
    }
    if is_keyword_next(names, Keyword::Volatile, tokens) {
        return Err(ReadFault::lacks(Feature::Volatile, tokens));
    }
    if is_complex_next(names, &so_far.said, tokens) {
        return Err(ReadFault::lacks(Feature::Complex, tokens));
    }
    word(names, so_far, tokens)
}

/// A word of storage, where it may stand.
fn storage_word<'a>(
    names: &Names,
    seat: Seat,
    so_far: Specified,
    tokens: &'a [Token],
) -> Result<Read<'a, Specified>, ReadFault>
    requires known { IsKnown so_far }
    ensures read { GivesAs plain_specified
        (taken lexeme.unexpected
        (spec.storage_after (reading names.now.texts []) seat (plain_specified so_far)) tokens.now)
        result }
    ensures known { IfOk result (λ r. IsKnown r.value) }
    ensures depth { IfOk result (λ r. r.value.depth ≡ so_far.depth) }
    ensures same { IfOk result (λ r. r.value.constant ≡ so_far.constant) }
{
    let Some((token, rest)) = tokens.split_first() else {
        return Err(ReadFault::at_end());
    };
    let Some(word) = keyword_of(names, token) else {
        return Err(ReadFault::unexpected(tokens));
    };
    match storage_in(seat, so_far.storage, word) {
        Some(storage) => Ok(Read {
            value: so_far.stored(storage),
            rest,
        }),
        None => Err(ReadFault::unexpected(tokens)),
    }
}

/// `const`, where a type may stand inside another.
fn constant<'a>(
    names: &Names,
    below: u32,
    so_far: Specified,
    tokens: &'a [Token],
) -> Result<Read<'a, Specified>, ReadFault>
    requires known { IsKnown so_far }
    requires fits { IsRoomy below so_far }
    ensures read { GivesAs plain_specified
        (part.constant names.now.texts below (plain_specified so_far) tokens.now) result }
    ensures known { IfOk result (λ r. IsKnown r.value) }
    ensures fits { IfOk result (λ r. IsRoomy below r.value) }
{
    if !so_far.constant && below <= so_far.depth {
        return Err(ReadFault::too_deep(tokens));
    }
    let word = take_keyword(names, Keyword::Const, tokens)?;
    Ok(Read {
        value: so_far.constantly(),
        rest: word.rest,
    })
}

/// A word that says nothing that a tree keeps.
fn skipped<'a>(
    names: &Names,
    word: Keyword,
    so_far: Specified,
    tokens: &'a [Token],
) -> Result<Read<'a, Specified>, ReadFault>
    ensures read { GivesAs plain_specified
        (part.skipped names.now.texts word (plain_specified so_far) tokens.now) result }
    ensures same { IfOk result (λ r. r.value ≡ so_far) }
{
    let found = take_keyword(names, word, tokens)?;
    Ok(Read {
        value: so_far,
        rest: found.rest,
    })
}

/// One specifier that begins with a keyword, and names no tag.
pub fn tagless<'a>(
    names: &Names,
    seat: Seat,
    below: u32,
    so_far: Specified,
    tokens: &'a [Token],
) -> Result<Read<'a, Specified>, ReadFault>
    requires known { IsKnown so_far }
    requires fits { IsRoomy below so_far }
    ensures read { GivesAs plain_specified
        (part.tagless names.now.texts seat below (plain_specified so_far) tokens.now) result }
    ensures known { IfOk result (λ r. IsKnown r.value) }
    ensures fits { IfOk result (λ r. IsRoomy below r.value) }
{
    if is_keyword_next(names, Keyword::Const, tokens) {
        return constant(names, below, so_far, tokens);
    }
    if is_keyword_next(names, Keyword::Restrict, tokens) {
        return skipped(names, Keyword::Restrict, so_far, tokens);
    }
    if is_inline_next(names, seat, tokens) {
        return skipped(names, Keyword::Inline, so_far, tokens);
    }
    if is_storage_next(names, tokens) {
        return storage_word(names, seat, so_far, tokens);
    }
    word_or_lacking(names, so_far, tokens)
}

// ---- all specifiers

/// A typedef name where no type is named so far.
pub fn typedef_name<'a>(
    names: &Names,
    so_far: Specified,
    tokens: &'a [Token],
) -> Result<Read<'a, Specified>, ReadFault>
    ensures read { GivesAs plain_specified
        (part.typedef_name names.now.texts (plain_specified so_far) tokens.now) result }
    ensures known { IfOk result (λ r. IsKnown r.value) }
    ensures depth { IfOk result (λ r. r.value.depth ≡ 1) }
    ensures same { IfOk result (λ r. r.value.constant ≡ so_far.constant) }
{
    if !names_type(names, &so_far, tokens) {
        return Err(ReadFault::unexpected(tokens));
    }
    let Some((token, rest)) = tokens.split_first() else {
        return Err(ReadFault::at_end());
    };
    Ok(Read {
        value: so_far.saying(Said::Defined(token.text, token.place)),
        rest,
    })
}

/// The specifiers, which have to name a type.
pub fn completed<'a>(found: Read<'a, Specified>) -> Result<Read<'a, Specified>, ReadFault>
    ensures read { ReadsSpecifiers
        (part.completed (plain_specified found.entry.value)
        (base_of (plain_specified found.entry.value)) found.entry.rest.now) result }
    ensures same { IfOk result (λ r. r.value ≡ found.entry.value) }
{
    if found.value.said.is_nothing() {
        return Err(ReadFault::unexpected(found.rest));
    }
    Ok(found)
}
