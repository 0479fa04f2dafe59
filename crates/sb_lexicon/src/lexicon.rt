//! What tokens are by the table of names and the typedef names in force: tests of one token (C99 6.4, 6.7.2, 6.7.7).
ghost use Rattle.std.specs.Prelude.{◌≡◌};
ghost use Rattle.sb_parse.specs.Parser.{at_next};
ghost use Rattle.sb_parse.specs.Descent.{at_second};
ghost use Rattle.sb_lexicon.specs.Lexicon as spec;
ghost use Rattle.sb_lexicon.specs.Meaning.{meant};
ghost use Rattle.sb_lexicon.specs.Tokens as reader;

use sb_base::{Name, Names, Token};
use sb_scope::Typedefs;
use sb_sign::{Keyword, Mark};

/// By what tokens are read: the table of names, the typedef names in force, and whether it is in an annotation.
#[derive(Clone, Copy)]
pub struct Lexicon<'a> {
    pub names: &'a Names,
    pub types: &'a Typedefs,
    pub in_note: bool,
}

pub fn is_mark(lexicon: &Lexicon, mark: Mark, token: &Token) -> bool
    ensures { result ≡ spec.is_mark (meant lexicon.now) mark token.now }
{
    sb_sign::is_mark(lexicon.names, mark, token)
}

pub fn is_keyword(lexicon: &Lexicon, keyword: Keyword, token: &Token) -> bool
    ensures { result ≡ spec.is_keyword (meant lexicon.now) keyword token.now }
{
    sb_sign::is_keyword(lexicon.names, keyword, token)
}

pub fn name_of(lexicon: &Lexicon, token: &Token) -> Option<Name>
    ensures { result ≡ spec.name_of (meant lexicon.now) token.now }
{
    sb_sign::name_of(lexicon.names, token)
}

/// Whether a name is that of a type.
pub fn names_type(lexicon: &Lexicon, name: Name) -> bool
    ensures { result ≡ spec.is_among name lexicon.now.types.now }
{
    lexicon.types.has(name)
}

pub fn is_type_name(lexicon: &Lexicon, token: &Token) -> bool
    ensures { result ≡ spec.is_type_name (meant lexicon.now) token.now }
{
    match name_of(lexicon, token) {
        Some(name) => names_type(lexicon, name),
        None => false,
    }
}

/// Whether a word can begin a type name, in C99 whole.
fn is_type_keyword(keyword: Keyword) -> bool
    ensures { result ≡ spec.is_type_keyword keyword }
{
    matches!(
        keyword,
        Keyword::Void
            | Keyword::Bool
            | Keyword::Char
            | Keyword::Short
            | Keyword::Int
            | Keyword::Long
            | Keyword::Signed
            | Keyword::Unsigned
            | Keyword::Float
            | Keyword::Double
            | Keyword::Complex
            | Keyword::Imaginary
            | Keyword::Struct
            | Keyword::Union
            | Keyword::Enum
            | Keyword::Const
            | Keyword::Restrict
            | Keyword::Volatile
    )
}

pub fn is_type_word(lexicon: &Lexicon, token: &Token) -> bool
    ensures { result ≡ spec.is_type_word (meant lexicon.now) token.now }
{
    match sb_sign::keyword_of(lexicon.names, token) {
        Some(keyword) => is_type_keyword(keyword),
        None => false,
    }
}

pub fn begins_type(lexicon: &Lexicon, token: &Token) -> bool
    ensures { result ≡ spec.begins_type (meant lexicon.now) token.now }
{
    is_type_word(lexicon, token) || is_type_name(lexicon, token)
}

pub fn is_qualifier(lexicon: &Lexicon, token: &Token) -> bool
    ensures { result ≡ reader.is_qualifier (meant lexicon.now) token.now }
{
    is_keyword(lexicon, Keyword::Const, token)
        || is_keyword(lexicon, Keyword::Restrict, token)
        || is_keyword(lexicon, Keyword::Volatile, token)
}

// ---- the next token

pub fn is_mark_next(lexicon: &Lexicon, mark: Mark, tokens: &[Token]) -> bool
    ensures { result ≡ at_next (spec.is_mark (meant lexicon.now) mark) tokens.now }
{
    match tokens.first() {
        Some(token) => is_mark(lexicon, mark, token),
        None => false,
    }
}

pub fn is_keyword_next(lexicon: &Lexicon, keyword: Keyword, tokens: &[Token]) -> bool
    ensures { result ≡ at_next (spec.is_keyword (meant lexicon.now) keyword) tokens.now }
{
    match tokens.first() {
        Some(token) => is_keyword(lexicon, keyword, token),
        None => false,
    }
}

pub fn is_type_name_next(lexicon: &Lexicon, tokens: &[Token]) -> bool
    ensures { result ≡ at_next (spec.is_type_name (meant lexicon.now)) tokens.now }
{
    match tokens.first() {
        Some(token) => is_type_name(lexicon, token),
        None => false,
    }
}

pub fn is_type_word_next(lexicon: &Lexicon, tokens: &[Token]) -> bool
    ensures { result ≡ at_next (spec.is_type_word (meant lexicon.now)) tokens.now }
{
    match tokens.first() {
        Some(token) => is_type_word(lexicon, token),
        None => false,
    }
}

pub fn is_type_next(lexicon: &Lexicon, tokens: &[Token]) -> bool
    ensures { result ≡ at_next (spec.begins_type (meant lexicon.now)) tokens.now }
{
    match tokens.first() {
        Some(token) => begins_type(lexicon, token),
        None => false,
    }
}

pub fn is_qualifier_next(lexicon: &Lexicon, tokens: &[Token]) -> bool
    ensures { result ≡ at_next (reader.is_qualifier (meant lexicon.now)) tokens.now }
{
    match tokens.first() {
        Some(token) => is_qualifier(lexicon, token),
        None => false,
    }
}

/// Whether the token after the next one can begin a type name.
pub fn is_type_second(lexicon: &Lexicon, tokens: &[Token]) -> bool
    ensures { result ≡ at_second (spec.begins_type (meant lexicon.now)) tokens.now }
{
    match tokens.split_first() {
        Some((_token, rest)) => is_type_next(lexicon, rest),
        None => false,
    }
}
