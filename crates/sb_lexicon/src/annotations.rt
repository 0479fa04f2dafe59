//! Which tokens are annotations (SAL 2.0), by the table of names and the typedef names in force.
ghost use Rattle.std.specs.Prelude.{◌≡◌};
ghost use Rattle.sb_lexicon.specs.Annotations as spec;
ghost use Rattle.sb_lexicon.specs.Meaning.{meant};
ghost use Rattle.sb_sign.specs.Signs.{text_at};

use crate::lexicon::{Lexicon, is_type_name, name_of};
use sb_base::{Name, Names, Token};
use sb_sign::{Arguments, arguments_in, looks_like_note};

/// The text that has this number; nothing where the table lacks it.
fn text_of<'a>(names: &'a Names, name: Name) -> &'a [u8]
    ensures { result.now ≡ text_at names.now.texts name.0 }
{
    match names.text(name) {
        Some(text) => text,
        None => b"".as_slice(),
    }
}

/// How a token is spelled.
#[tactic(auto, using(crate::proofs::Spelled::spelled))]
pub fn word_of<'a>(lexicon: &Lexicon<'a>, token: Token) -> &'a [u8]
    ensures { result.now ≡ spec.word_of (meant lexicon.now).texts token }
{
    text_of(lexicon.names, token.text)
}

/// Whether a token is a word in the place of an annotation. One that a typedef has defined is a type.
pub fn begins_note(lexicon: &Lexicon, token: &Token) -> bool
    ensures { result ≡ spec.begins_note (meant lexicon.now) token.now }
{
    name_of(lexicon, token).is_some()
        && !is_type_name(lexicon, token)
        && looks_like_note(word_of(lexicon, *token))
}

/// What stands in the parentheses behind an annotation; nothing where a token is none.
pub fn arguments_of(lexicon: &Lexicon, token: &Token) -> Option<Arguments>
    ensures { result ≡ spec.arguments_of (meant lexicon.now) token.now }
{
    if begins_note(lexicon, token) {
        arguments_in(word_of(lexicon, *token))
    } else {
        None
    }
}

/// Whether a token is an annotation's name.
pub fn is_listed(lexicon: &Lexicon, token: &Token) -> bool
    ensures { result ≡ spec.is_listed (meant lexicon.now) token.now }
{
    arguments_of(lexicon, token).is_some()
}

/// Whether a token looks like an annotation and is none.
pub fn is_unlisted(lexicon: &Lexicon, token: &Token) -> bool
    ensures { result ≡ spec.is_unlisted (meant lexicon.now) token.now }
{
    begins_note(lexicon, token) && !is_listed(lexicon, token)
}
