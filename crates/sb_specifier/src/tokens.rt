//! What tokens are to declarations: tests of the next token, and steps over one token.
ghost use Rattle.std.specs.Prelude.{◌≡◌, [], not};
ghost use Rattle.sb_parse.specs.Parser.{at_next, taken, token as next};
ghost use Rattle.sb_lexicon.specs.Meaning.{meant, Gives};
ghost use Rattle.sb_lexicon.specs.Tokens as expr;
ghost use Rattle.sb_sign.specs.Signs as sign;
ghost use Rattle.sb_specifier.specs.Parts.{comma_behind};
ghost use Rattle.sb_specifier.specs.Readers as spec;
ghost use Rattle.sb_specifier.specs.Specified.{reading};

use sb_base::{Name, Names, Place, Token};
use sb_lexicon::{Lexicon, Read, ReadFault, is_type_word, take};
use sb_scope::Typedefs;
use sb_sign::{Keyword, Mark, is_keyword, is_mark, keyword_of, name_of};

/// Whether a word is one of storage, or `inline` (C99 6.7.1, 6.7.4).
fn is_storage_keyword(keyword: Keyword) -> bool
    ensures { result ≡ spec.is_storage_keyword keyword }
{
    matches!(
        keyword,
        Keyword::Typedef | Keyword::Extern | Keyword::Static | Keyword::Register | Keyword::Inline
    )
}

/// Whether a token is a word of storage, or `inline`.
pub fn is_storage_word(lexicon: &Lexicon, token: &Token) -> bool
    ensures { result ≡ spec.is_storage_word (meant lexicon.now) token.now }
{
    match keyword_of(lexicon.names, token) {
        Some(keyword) => is_storage_keyword(keyword),
        None => false,
    }
}

/// Whether a token is a keyword that is a specifier, in C99 whole.
pub(crate) fn is_specifier_word(lexicon: &Lexicon, token: &Token) -> bool
    ensures { result ≡ spec.is_specifier_word (meant lexicon.now) token.now }
{
    is_type_word(lexicon, token) || is_storage_word(lexicon, token)
}

/// Whether a token is an identifier.
pub fn is_name(names: &Names, token: &Token) -> bool
    ensures { result ≡ spec.is_name (reading names.now.texts []) token.now }
{
    name_of(names, token).is_some()
}

// ---- the next token

pub fn is_mark_next(names: &Names, mark: Mark, tokens: &[Token]) -> bool
    ensures { result ≡ at_next (sign.is_mark names.now.texts mark) tokens.now }
{
    match tokens.first() {
        Some(token) => is_mark(names, mark, token),
        None => false,
    }
}

/// Whether there is a next token, and it is not this punctuator.
pub fn is_other_next(names: &Names, mark: Mark, tokens: &[Token]) -> bool
    ensures { result ≡ at_next (λ t. not (sign.is_mark names.now.texts mark t)) tokens.now }
{
    match tokens.first() {
        Some(token) => !is_mark(names, mark, token),
        None => false,
    }
}

pub(crate) fn is_keyword_next(names: &Names, keyword: Keyword, tokens: &[Token]) -> bool
    ensures { result ≡ at_next (sign.is_keyword names.now.texts keyword) tokens.now }
{
    match tokens.first() {
        Some(token) => is_keyword(names, keyword, token),
        None => false,
    }
}

pub fn is_name_next(names: &Names, tokens: &[Token]) -> bool
    ensures { result ≡ at_next (spec.is_name (reading names.now.texts [])) tokens.now }
{
    match tokens.first() {
        Some(token) => is_name(names, token),
        None => false,
    }
}

pub(crate) fn is_storage_next(names: &Names, tokens: &[Token]) -> bool
    ensures { result ≡ at_next (spec.is_storage_word (reading names.now.texts [])) tokens.now }
{
    match tokens.first() {
        Some(token) => {
            let none = Typedefs::none();
            is_storage_word(&plain(names, &none), token)
        }
        None => false,
    }
}

pub fn is_specifier_next(names: &Names, tokens: &[Token]) -> bool
    ensures { result ≡ at_next (spec.is_specifier_word (reading names.now.texts [])) tokens.now }
{
    match tokens.first() {
        Some(token) => {
            let none = Typedefs::none();
            is_specifier_word(&plain(names, &none), token)
        }
        None => false,
    }
}

/// By what tokens are read where these typedef names are in force.
fn plain<'a>(names: &'a Names, types: &'a Typedefs) -> Lexicon<'a>
    ensures { meant result ≡ reading names.now.texts types.now }
{
    Lexicon {
        names,
        types,
        in_note: false,
    }
}

// ---- the next token, which has to be so

pub fn take_mark<'a>(
    names: &Names,
    mark: Mark,
    tokens: &'a [Token],
) -> Result<Read<'a, Token>, ReadFault>
    ensures { Gives (next expr.unexpected (sign.is_mark names.now.texts mark) tokens.now) result }
{
    match tokens.split_first() {
        Some((first, rest)) if is_mark(names, mark, first) => Ok(Read {
            value: *first,
            rest,
        }),
        _ => Err(ReadFault::unexpected(tokens)),
    }
}

pub fn take_keyword<'a>(
    names: &Names,
    keyword: Keyword,
    tokens: &'a [Token],
) -> Result<Read<'a, Token>, ReadFault>
    ensures { Gives (next expr.unexpected (sign.is_keyword names.now.texts keyword) tokens.now)
        result }
{
    match tokens.split_first() {
        Some((first, rest)) if is_keyword(names, keyword, first) => Ok(Read {
            value: *first,
            rest,
        }),
        _ => Err(ReadFault::unexpected(tokens)),
    }
}

fn name_at(names: &Names, token: &Token) -> Option<(Name, Place)>
    ensures { result ≡ spec.name_at (reading names.now.texts []) token.now }
{
    let name = name_of(names, token)?;
    Some((name, token.place))
}

/// An identifier, with its place.
pub fn take_name<'a>(
    names: &Names,
    tokens: &'a [Token],
) -> Result<Read<'a, (Name, Place)>, ReadFault>
    ensures { Gives (taken expr.unexpected (spec.name_at (reading names.now.texts [])) tokens.now)
        result }
{
    match tokens.split_first() {
        Some((token, rest)) => take(name_at(names, token), rest),
        None => Err(ReadFault::at_end()),
    }
}

/// A comma, where there is one.
pub fn comma_behind<'a>(names: &Names, tokens: &'a [Token]) -> Result<Read<'a, bool>, ReadFault>
    ensures { Gives (comma_behind (reading names.now.texts []) tokens.now) result }
{
    if !is_mark_next(names, Mark::Comma, tokens) {
        return Ok(Read {
            value: false,
            rest: tokens,
        });
    }
    let comma = take_mark(names, Mark::Comma, tokens)?;
    Ok(Read {
        value: true,
        rest: comma.rest,
    })
}
