//! Parameter lists of `void` alone, and what old definitions begin with (C99 6.7.5.3).
ghost use Rattle.std.specs.Prelude.{◌≡◌, IfOk};
ghost use Rattle.sb_parse.specs.Parser.{at_next};
ghost use Rattle.sb_parse.specs.Descent.{at_second};
ghost use Rattle.sb_lexicon.specs.Meaning.{meant};
ghost use Rattle.sb_lexicon.specs.Tokens as expr;
ghost use Rattle.sb_derivation.specs.Declarators as part;
ghost use Rattle.sb_derivation.specs.Meaning.{plain_declarations, AreKnown, ReadsDeclarations};

use crate::declarator::is_plain_name;
use crate::members::Declarations;
use sb_base::Token;
use sb_lexicon::{
    Feature, Lexicon, Read, ReadFault, is_keyword, is_keyword_next, is_mark, name_of, take_keyword,
};
use sb_sign::{Keyword, Mark};
use sb_specifier::{Seat, barred, is_mark_next};
use std::alloc::{AllocError, Global};

/// Whether a parameter can go on with the next token behind `void`.
fn is_void_continued(lexicon: &Lexicon, tokens: &[Token]) -> bool
    ensures { result ≡ at_next (part.goes_on_void (meant lexicon.now)) tokens.now }
{
    match tokens.first() {
        Some(token) => {
            is_mark(lexicon, Mark::Star, token)
                || is_mark(lexicon, Mark::OpenParenthesis, token)
                || is_mark(lexicon, Mark::OpenBracket, token)
                || name_of(lexicon, token).is_some()
                || is_mark(lexicon, Mark::Comma, token)
                || is_keyword(lexicon, Keyword::Const, token)
                || is_keyword(lexicon, Keyword::Restrict, token)
                || is_keyword(lexicon, Keyword::Register, token)
                || is_keyword(lexicon, Keyword::Inline, token)
        }
        None => false,
    }
}

/// Whether the next token closes the parentheses or is a name that is no type and no annotation.
pub fn is_old_next(lexicon: &Lexicon, tokens: &[Token]) -> bool
    ensures { result ≡ at_next (part.begins_old (meant lexicon.now)) tokens.now }
{
    match tokens.first() {
        Some(token) => {
            is_mark(lexicon, Mark::CloseParenthesis, token) || is_plain_name(lexicon, token)
        }
        None => false,
    }
}

/// Whether the token after the next one closes the parentheses.
pub fn is_close_second(lexicon: &Lexicon, tokens: &[Token]) -> bool
    ensures { result ≡ at_second (expr.is_close (meant lexicon.now)) tokens.now }
{
    match tokens.split_first() {
        Some((_first, rest)) => is_mark_next(lexicon.names, Mark::CloseParenthesis, rest),
        None => false,
    }
}

fn no_parameters(alloc: Global, lexicon: &Lexicon) -> Result<Declarations, AllocError>
    ensures list { IfOk result
        (λ ds. plain_declarations ds ≡ part.no_parameters (meant lexicon.now)) }
    ensures known { IfOk result (λ ds. AreKnown ds) }
    ensures depth { IfOk result (λ ds. ds.depth ≡ 0) }
{
    Ok(Declarations {
        list: Vec::new(alloc),
        depth: 0,
        types: lexicon.types.clone()?,
    })
}

/// What stands behind `void` where no parameter has room.
fn behind_void<'a>(
    alloc: Global,
    lexicon: &Lexicon,
    tokens: &'a [Token],
) -> Result<Read<'a, Declarations>, ReadFault>
    ensures read { ReadsDeclarations (part.behind_void (meant lexicon.now) tokens.now) result }
    ensures depth { IfOk result (λ r. r.value.depth ≡ 0) }
{
    if is_mark_next(lexicon.names, Mark::CloseParenthesis, tokens) {
        return Ok(Read {
            value: no_parameters(alloc, lexicon)?,
            rest: tokens,
        });
    }
    if is_keyword_next(lexicon, Keyword::Volatile, tokens) {
        return Err(ReadFault::lacks(Feature::Volatile, tokens));
    }
    if is_void_continued(lexicon, tokens) {
        return Err(ReadFault::too_deep(tokens));
    }
    Err(ReadFault::unexpected(tokens))
}

/// `void` alone, where no parameter has room.
pub fn only_void<'a>(
    alloc: Global,
    lexicon: &Lexicon,
    tokens: &'a [Token],
) -> Result<Read<'a, Declarations>, ReadFault>
    ensures read { ReadsDeclarations (part.only_void (meant lexicon.now) tokens.now) result }
    ensures depth { IfOk result (λ r. r.value.depth ≡ 0) }
{
    if !is_keyword_next(lexicon, Keyword::Void, tokens) {
        return Err(barred(lexicon, Seat::Prototype, tokens));
    }
    let word = take_keyword(lexicon, Keyword::Void, tokens)?;
    behind_void(alloc, lexicon, word.rest)
}

/// `void` before the closing parenthesis.
pub fn void_parameters<'a>(
    alloc: Global,
    lexicon: &Lexicon,
    tokens: &'a [Token],
) -> Result<Read<'a, Declarations>, ReadFault>
    ensures read { ReadsDeclarations (part.void_parameters (meant lexicon.now) tokens.now) result }
    ensures depth { IfOk result (λ r. r.value.depth ≡ 0) }
{
    let word = take_keyword(lexicon, Keyword::Void, tokens)?;
    Ok(Read {
        value: no_parameters(alloc, lexicon)?,
        rest: word.rest,
    })
}
