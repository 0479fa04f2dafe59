//! The specifiers of a type name: words, qualifiers and one tag or typedef name (C99 6.7.2, 6.7.3, 6.7.7).
ghost use Rattle.std.specs.Prelude.{◌≡◌, ◌<◌, IfOk, true};
ghost use Rattle.std.specs.Option.{option_map};
ghost use Rattle.sb_parse.specs.Parser.{looped, taken, at_next};
ghost use Rattle.sb_lexicon.specs.Lexicon as lex;
ghost use Rattle.sb_lexicon.specs.Meaning.{meant, GivesAs, plain_said, plain_specifiers};
ghost use Rattle.sb_lexicon.specs.Parts.{names_type, constant, structure, enumeration, word_or_lacking};
ghost use Rattle.sb_lexicon.specs.SpecifierReaders as spec;
ghost use Rattle.sb_lexicon.specs.Tokens as lexeme;
ghost use Rattle.sb_lexicon.specs.Words as words;

use crate::lexicon::{
    Lexicon, is_keyword, is_keyword_next, is_type_name, is_type_word_next, name_of,
};
use crate::reading::{Feature, Read, ReadFault, take_keyword, take_type_name};
use crate::words::TypeWords;
use sb_base::{Name, Place, Token};
use sb_sign::{Keyword, keyword_of};

/// What specifiers say of a type so far.
#[derive(Clone, Copy)]
pub enum Said {
    Nothing,
    /// Words of an arithmetic type, from this place on.
    Words(TypeWords, Place),
    Struct(Name, Place),
    Enum(Name, Place),
    Defined(Name, Place),
}

/// The specifiers so far, and whether `const` is among them.
#[derive(Clone, Copy)]
pub struct Specifiers {
    pub said: Said,
    pub constant: bool,
}

impl Said {
    pub fn is_nothing(self) -> bool
        ensures { result ≡ words.is_nothing (plain_said self) }
    {
        matches!(self, Said::Nothing)
    }

    /// Whether `double` and `_Complex` may follow.
    pub fn may_be_floating(self) -> bool
        ensures { result ≡ spec.may_be_floating (plain_said self) }
    {
        match self {
            Said::Nothing => true,
            Said::Words(words, _place) => words.may_be_floating(),
            _ => false,
        }
    }

    /// With one more word of an arithmetic type, which stands at this place.
    pub fn with_word(self, word: Keyword, place: Place) -> Option<Said>
        ensures { option_map plain_said result ≡ words.said_after word place (plain_said self) }
    {
        match self {
            Said::Nothing => Some(Said::Words(TypeWords::none().put(word)?, place)),
            Said::Words(words, from) => Some(Said::Words(words.put(word)?, from)),
            _ => None,
        }
    }
}

pub fn is_floating_next(lexicon: &Lexicon, said: Said, tokens: &[Token]) -> bool
    ensures { result ≡ at_next (spec.is_floating (meant lexicon.now) (plain_said said)) tokens.now }
{
    match tokens.first() {
        Some(token) => {
            is_keyword(lexicon, Keyword::Float, token) && said.is_nothing()
                || is_keyword(lexicon, Keyword::Double, token) && said.may_be_floating()
        }
        None => false,
    }
}

pub fn is_union_next(lexicon: &Lexicon, said: Said, tokens: &[Token]) -> bool
    ensures { result ≡ at_next (spec.is_union (meant lexicon.now) (plain_said said)) tokens.now }
{
    match tokens.first() {
        Some(token) => is_keyword(lexicon, Keyword::Union, token) && said.is_nothing(),
        None => false,
    }
}

pub fn is_complex_next(lexicon: &Lexicon, said: Said, tokens: &[Token]) -> bool
    ensures { result ≡ at_next (spec.is_complex (meant lexicon.now) (plain_said said)) tokens.now }
{
    match tokens.first() {
        Some(token) => {
            (is_keyword(lexicon, Keyword::Complex, token)
                || is_keyword(lexicon, Keyword::Imaginary, token))
                && said.may_be_floating()
        }
        None => false,
    }
}

pub fn is_tag_word_next(lexicon: &Lexicon, said: Said, word: Keyword, tokens: &[Token]) -> bool
    ensures { result ≡ at_next (spec.is_tag_word (meant lexicon.now) (plain_said said) word)
        tokens.now }
{
    match tokens.first() {
        Some(token) => is_keyword(lexicon, word, token) && said.is_nothing(),
        None => false,
    }
}

pub fn names_type_next(lexicon: &Lexicon, said: Said, tokens: &[Token]) -> bool
    ensures { result ≡ at_next (names_type (meant lexicon.now) (plain_said said)) tokens.now }
{
    match tokens.first() {
        Some(token) => said.is_nothing() && is_type_name(lexicon, token),
        None => false,
    }
}

/// One more word of an arithmetic type.
fn word<'a>(
    lexicon: &Lexicon,
    so_far: Specifiers,
    tokens: &'a [Token],
) -> Result<Read<'a, Specifiers>, ReadFault>
    ensures read { GivesAs plain_specifiers
        (taken lexeme.unexpected (spec.word_after (meant lexicon.now) (plain_specifiers so_far))
        tokens.now) result }
    ensures same { IfOk result (λ r. r.value.constant ≡ so_far.constant) }
{
    let Some((token, rest)) = tokens.split_first() else {
        return Err(ReadFault::at_end());
    };
    let Some(word) = keyword_of(lexicon.names, token) else {
        return Err(ReadFault::unexpected(tokens));
    };
    match so_far.said.with_word(word, token.place) {
        Some(said) => Ok(Read {
            value: Specifiers {
                said,
                constant: so_far.constant,
            },
            rest,
        }),
        None => Err(ReadFault::unexpected(tokens)),
    }
}

/// A word of an arithmetic type, or one that is left out.
fn word_or_lacking<'a>(
    lexicon: &Lexicon,
    so_far: Specifiers,
    tokens: &'a [Token],
) -> Result<Read<'a, Specifiers>, ReadFault>
    ensures read { GivesAs plain_specifiers
        (word_or_lacking (meant lexicon.now) (plain_specifiers so_far) tokens.now) result }
    ensures same { IfOk result (λ r. r.value.constant ≡ so_far.constant) }
{
    if is_floating_next(lexicon, so_far.said, tokens) {
        return Err(ReadFault::lacks(Feature::Floating, tokens));
    }
    if is_union_next(lexicon, so_far.said, tokens) {
        return Err(ReadFault::lacks(Feature::Union, tokens));
    }
    if is_keyword_next(lexicon, Keyword::Volatile, tokens) {
        return Err(ReadFault::lacks(Feature::Volatile, tokens));
    }
    if is_complex_next(lexicon, so_far.said, tokens) {
        return Err(ReadFault::lacks(Feature::Complex, tokens));
    }
    word(lexicon, so_far, tokens)
}

/// `struct` and its tag.
fn structure<'a>(
    lexicon: &Lexicon,
    so_far: Specifiers,
    tokens: &'a [Token],
) -> Result<Read<'a, Specifiers>, ReadFault>
    ensures read { GivesAs plain_specifiers
        (structure (meant lexicon.now) (plain_specifiers so_far) tokens.now) result }
    ensures same { IfOk result (λ r. r.value.constant ≡ so_far.constant) }
{
    let word = take_keyword(lexicon, Keyword::Struct, tokens)?;
    let Some((token, rest)) = word.rest.split_first() else {
        return Err(ReadFault::at_end());
    };
    match name_of(lexicon, token) {
        Some(tag) => Ok(Read {
            value: Specifiers {
                said: Said::Struct(tag, token.place),
                constant: so_far.constant,
            },
            rest,
        }),
        None => Err(ReadFault::unexpected(word.rest)),
    }
}

/// `enum` and its tag.
fn enumeration<'a>(
    lexicon: &Lexicon,
    so_far: Specifiers,
    tokens: &'a [Token],
) -> Result<Read<'a, Specifiers>, ReadFault>
    ensures read { GivesAs plain_specifiers
        (enumeration (meant lexicon.now) (plain_specifiers so_far) tokens.now) result }
    ensures same { IfOk result (λ r. r.value.constant ≡ so_far.constant) }
{
    let word = take_keyword(lexicon, Keyword::Enum, tokens)?;
    let Some((token, rest)) = word.rest.split_first() else {
        return Err(ReadFault::at_end());
    };
    match name_of(lexicon, token) {
        Some(tag) => Ok(Read {
            value: Specifiers {
                said: Said::Enum(tag, token.place),
                constant: so_far.constant,
            },
            rest,
        }),
        None => Err(ReadFault::unexpected(word.rest)),
    }
}

/// `const`, where a type may stand inside another.
fn constant<'a>(
    lexicon: &Lexicon,
    so_far: Specifiers,
    below: u32,
    tokens: &'a [Token],
) -> Result<Read<'a, Specifiers>, ReadFault>
    ensures read { GivesAs plain_specifiers
        (constant (meant lexicon.now) (lexeme.is_zero below) (plain_specifiers so_far) tokens.now)
        result }
    ensures room { IfOk result (λ r. r.value.constant ≡ true → 0 < below) }
{
    if below == 0 {
        return Err(ReadFault::too_deep(tokens));
    }
    let word = take_keyword(lexicon, Keyword::Const, tokens)?;
    Ok(Read {
        value: Specifiers {
            said: so_far.said,
            constant: true,
        },
        rest: word.rest,
    })
}

/// One specifier that begins with a keyword. `below`: how deep a type may be inside another.
#[tactic(auto, unfolding(crate::specs::SpecifierReaders::specified))]
fn specified<'a>(
    lexicon: &Lexicon,
    so_far: Specifiers,
    below: u32,
    tokens: &'a [Token],
) -> Result<Read<'a, Specifiers>, ReadFault>
    requires room { so_far.constant ≡ true → 0 < below }
    ensures read { GivesAs plain_specifiers
        (spec.specified (meant lexicon.now) (lexeme.is_zero below) (plain_specifiers so_far)
        tokens.now) result }
    ensures room { IfOk result (λ r. r.value.constant ≡ true → 0 < below) }
{
    if is_keyword_next(lexicon, Keyword::Const, tokens) {
        return constant(lexicon, so_far, below, tokens);
    }
    if is_keyword_next(lexicon, Keyword::Restrict, tokens) {
        let word = take_keyword(lexicon, Keyword::Restrict, tokens)?;
        return Ok(Read {
            value: so_far,
            rest: word.rest,
        });
    }
    if is_tag_word_next(lexicon, so_far.said, Keyword::Struct, tokens) {
        return structure(lexicon, so_far, tokens);
    }
    if is_tag_word_next(lexicon, so_far.said, Keyword::Enum, tokens) {
        return enumeration(lexicon, so_far, tokens);
    }
    word_or_lacking(lexicon, so_far, tokens)
}

/// As many specifiers that begin with a keyword as there are.
pub fn keyword_specifiers<'a>(
    lexicon: &Lexicon,
    first: Specifiers,
    below: u32,
    tokens: &'a [Token],
) -> Result<Read<'a, Specifiers>, ReadFault>
    requires room { first.constant ≡ true → 0 < below }
    ensures read { GivesAs plain_specifiers
        (looped (lex.is_type_word (meant lexicon.now))
        (spec.specified (meant lexicon.now) (lexeme.is_zero below)) (plain_specifiers first)
        tokens.now) result }
    ensures room { IfOk result (λ r. r.value.constant ≡ true → 0 < below) }
{
    let mut found = Read {
        value: first,
        rest: tokens,
    };
    for _turn in 0..tokens.len() {
        if !is_type_word_next(lexicon, found.rest) {
            return Ok(found);
        }
        found = specified(lexicon, found.value, below, found.rest)?;
    }
    Ok(found)
}

/// A typedef name where no type is named so far.
#[tactic(auto, unfolding(crate::specs::SpecifierReaders::defined, crate::specs::SpecifierReaders::keyword_specifiers))]
pub fn defined<'a>(
    lexicon: &Lexicon,
    so_far: Specifiers,
    below: u32,
    tokens: &'a [Token],
) -> Result<Read<'a, Specifiers>, ReadFault>
    requires room { so_far.constant ≡ true → 0 < below }
    ensures read { GivesAs plain_specifiers
        (spec.defined (meant lexicon.now) (lexeme.is_zero below) (plain_specifiers so_far)
        tokens.now) result }
    ensures room { IfOk result (λ r. r.value.constant ≡ true → 0 < below) }
{
    if !names_type_next(lexicon, so_far.said, tokens) {
        return Ok(Read {
            value: so_far,
            rest: tokens,
        });
    }
    let name = take_type_name(lexicon, tokens)?;
    let whole = Specifiers {
        said: Said::Defined(name.value.text, name.value.place),
        constant: so_far.constant,
    };
    keyword_specifiers(lexicon, whole, below, name.rest)
}
