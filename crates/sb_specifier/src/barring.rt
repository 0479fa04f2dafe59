//! Where no declaration may follow.
ghost use Rattle.std.specs.Prelude.{◌≡◌};
ghost use Rattle.sb_parse.specs.Parser.{at_next};
ghost use Rattle.sb_lexicon.specs.Meaning.{meant, stop_number, IsFault};
ghost use Rattle.sb_specifier.specs.Parts.{no_declaration, none_follows};
ghost use Rattle.sb_specifier.specs.Readers as spec;
ghost use Rattle.sb_specifier.specs.Specified.{bearer_at};

use crate::seat::Seat;
use crate::tokens::is_storage_word;
use sb_base::Token;
use sb_lexicon::{
    Feature, Lexicon, ReadFault, Reason, Said, begins_type, is_complex_next, is_floating_next,
    is_keyword, is_keyword_next, is_type_name, is_type_word, is_union_next,
};
use sb_sal::{Bearer, begins_note, is_misplaced_next, is_unlisted_next};
use sb_sign::Keyword;

/// What the annotations of a declaration are judged by while it is read.
fn bearer_at(seat: Seat) -> Bearer
    ensures { result ≡ bearer_at seat }
{
    match seat {
        Seat::Scope => Bearer::Function,
        Seat::Structure => Bearer::Member,
        Seat::Prototype => Bearer::Parameter,
    }
}

/// Whether a declaration can begin with a token.
pub fn begins_declaration(lexicon: &Lexicon, token: &Token) -> bool
    ensures { result ≡ spec.begins_declaration (meant lexicon.now) token.now }
{
    is_type_word(lexicon, token)
        || is_storage_word(lexicon, token)
        || is_type_name(lexicon, token)
        || begins_note(lexicon, token)
}

/// Whether a parameter can begin with a token.
pub fn begins_parameter(lexicon: &Lexicon, token: &Token) -> bool
    ensures { result ≡ spec.begins_parameter (meant lexicon.now) token.now }
{
    begins_type(lexicon, token)
        || is_keyword(lexicon, Keyword::Register, token)
        || is_keyword(lexicon, Keyword::Inline, token)
        || begins_note(lexicon, token)
}

fn begins_at(lexicon: &Lexicon, seat: Seat, token: &Token) -> bool
    ensures { result ≡ spec.begins_at (meant lexicon.now) seat token.now }
{
    match seat {
        Seat::Scope => begins_declaration(lexicon, token),
        Seat::Structure => begins_type(lexicon, token) || begins_note(lexicon, token),
        Seat::Prototype => begins_parameter(lexicon, token),
    }
}

fn is_declaration_next(lexicon: &Lexicon, seat: Seat, tokens: &[Token]) -> bool
    ensures { result ≡ at_next (spec.begins_at (meant lexicon.now) seat) tokens.now }
{
    match tokens.first() {
        Some(token) => begins_at(lexicon, seat, token),
        None => false,
    }
}

/// The refusal where no declaration may follow: `reason` at a token with which one may begin.
pub fn barred_by(reason: Reason, lexicon: &Lexicon, seat: Seat, tokens: &[Token]) -> ReadFault
    ensures { IsFault (none_follows (stop_number reason) (meant lexicon.now) seat tokens.now)
        result }
{
    if is_unlisted_next(lexicon, tokens) {
        return ReadFault::at(Reason::UnknownAnnotation, tokens);
    }
    if is_misplaced_next(lexicon, bearer_at(seat), tokens) {
        return ReadFault::at(Reason::Misplaced, tokens);
    }
    if is_floating_next(lexicon, Said::Nothing, tokens) {
        return ReadFault::lacks(Feature::Floating, tokens);
    }
    if is_union_next(lexicon, Said::Nothing, tokens) {
        return ReadFault::lacks(Feature::Union, tokens);
    }
    if is_keyword_next(lexicon, Keyword::Volatile, tokens) {
        return ReadFault::lacks(Feature::Volatile, tokens);
    }
    if is_complex_next(lexicon, Said::Nothing, tokens) {
        return ReadFault::lacks(Feature::Complex, tokens);
    }
    if is_declaration_next(lexicon, seat, tokens) {
        return ReadFault::at(reason, tokens);
    }
    ReadFault::unexpected(tokens)
}

/// The refusal of a declaration for which there is no room.
pub fn barred(lexicon: &Lexicon, seat: Seat, tokens: &[Token]) -> ReadFault
    ensures { IsFault (no_declaration (meant lexicon.now) seat tokens.now) result }
{
    barred_by(Reason::TooDeep, lexicon, seat, tokens)
}
