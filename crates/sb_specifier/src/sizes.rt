//! The sizes of arrays (C99 6.7.5.2, 6.7.5.3 paragraph 7).
ghost use Rattle.std.specs.Prelude.{◌≡◌, ◌≤◌, ◌<◌, ◌-◌, suc, false, IfOk};
ghost use Rattle.sb_parse.specs.Parser.{at_next, looped, token as next};
ghost use Rattle.sb_expr.specs.Meaning.{ReadsSize};
ghost use Rattle.sb_lexicon.specs.Meaning.{meant, Gives};
ghost use Rattle.sb_lexicon.specs.Tokens as expr;
ghost use Rattle.sb_specifier.specs.Sizes as spec;

use sb_base::Token;
use sb_expr::{Level, Size, within};
use sb_lexicon::{
    Feature, Lexicon, Read, ReadFault, is_keyword, is_keyword_next, is_mark_next, is_qualifier,
    take_keyword,
};
use sb_sign::{Keyword, Mark};
use std::alloc::Global;

/// Whether `static` or a qualifier comes next.
fn is_size_word_next(lexicon: &Lexicon, tokens: &[Token]) -> bool
    ensures { result ≡ at_next (spec.is_size_word (meant lexicon.now)) tokens.now }
{
    match tokens.first() {
        Some(token) => {
            is_keyword(lexicon, Keyword::Static, token) || is_qualifier(lexicon, token)
        }
        None => false,
    }
}

fn is_first_static_next(lexicon: &Lexicon, fixed: bool, tokens: &[Token]) -> bool
    ensures { result ≡ at_next (spec.is_first_static (meant lexicon.now) fixed) tokens.now }
{
    match tokens.first() {
        Some(token) => is_keyword(lexicon, Keyword::Static, token) && !fixed,
        None => false,
    }
}

fn take_qualifier<'a>(lexicon: &Lexicon, tokens: &'a [Token]) -> Result<Read<'a, Token>, ReadFault>
    ensures { Gives (next expr.unexpected (expr.is_qualifier (meant lexicon.now)) tokens.now)
        result }
{
    match tokens.split_first() {
        Some((first, rest)) if is_qualifier(lexicon, first) => Ok(Read {
            value: *first,
            rest,
        }),
        _ => Err(ReadFault::unexpected(tokens)),
    }
}

/// One word before the size of a parameter's outermost array; `qualified`: qualifiers stand before `static`;
/// `fixed`: it was read.
fn size_word<'a>(
    lexicon: &Lexicon,
    qualified: bool,
    fixed: bool,
    tokens: &'a [Token],
) -> Result<Read<'a, (bool, bool)>, ReadFault>
    ensures { Gives (spec.size_word (meant lexicon.now) (qualified, fixed) tokens.now) result }
{
    if is_first_static_next(lexicon, fixed, tokens) {
        let word = take_keyword(lexicon, Keyword::Static, tokens)?;
        return Ok(Read {
            value: (qualified, true),
            rest: word.rest,
        });
    }
    if qualified && fixed {
        return Err(ReadFault::unexpected(tokens));
    }
    if is_keyword_next(lexicon, Keyword::Volatile, tokens) {
        return Err(ReadFault::lacks(Feature::Volatile, tokens));
    }
    let word = take_qualifier(lexicon, tokens)?;
    Ok(Read {
        value: (!fixed, fixed),
        rest: word.rest,
    })
}

/// As many such words as there are, and whether `static` is among them, behind qualifiers or not.
fn size_words<'a>(
    lexicon: &Lexicon,
    tokens: &'a [Token],
) -> Result<Read<'a, (bool, bool)>, ReadFault>
    ensures { Gives (looped (spec.is_size_word (meant lexicon.now))
        (spec.size_word (meant lexicon.now)) (false, false) tokens.now) result }
{
    let mut found = Read {
        value: (false, false),
        rest: tokens,
    };
    for _turn in 0..tokens.len() {
        if !is_size_word_next(lexicon, found.rest) {
            return Ok(found);
        }
        found = size_word(lexicon, found.value.0, found.value.1, found.rest)?;
    }
    Ok(found)
}

/// The size of an array under so many pieces, which has to be there.
fn size<'a>(
    alloc: Global,
    lexicon: &Lexicon,
    count: u32,
    below: u32,
    tokens: &'a [Token],
) -> Result<Size<'a>, ReadFault>
    requires shallow { below < 200 }
    requires few { count < below }
    ensures read { ReadsSize (spec.size (meant lexicon.now) below count tokens.now) result }
    ensures depth { IfOk result (λ s. s.depth ≤ below - suc count) }
{
    let length = within(
        alloc,
        lexicon,
        Level::Assignment,
        below - (count + 1),
        tokens,
    )?;
    Ok(Size {
        length: Some(length.tree),
        depth: length.depth,
        rest: length.rest,
    })
}

/// The size of an array under so many pieces, where one is written.
fn optional_size<'a>(
    alloc: Global,
    lexicon: &Lexicon,
    count: u32,
    below: u32,
    tokens: &'a [Token],
) -> Result<Size<'a>, ReadFault>
    requires shallow { below < 200 }
    requires few { count < below }
    ensures read { ReadsSize (spec.sized (meant lexicon.now) below count tokens.now) result }
    ensures depth { IfOk result (λ s. s.depth ≤ below - suc count) }
{
    if is_mark_next(lexicon, Mark::CloseBracket, tokens) {
        return Ok(Size {
            length: None,
            depth: 0,
            rest: tokens,
        });
    }
    size(alloc, lexicon, count, below, tokens)
}

/// What stands in the brackets of an array under so many pieces. `outermost`: the array is a parameter.
pub fn array_size<'a>(
    alloc: Global,
    lexicon: &Lexicon,
    outermost: bool,
    count: u32,
    below: u32,
    tokens: &'a [Token],
) -> Result<Size<'a>, ReadFault>
    requires shallow { below < 200 }
    requires few { count < below }
    ensures read { ReadsSize (spec.array_size (meant lexicon.now) outermost below count tokens.now)
        result }
    ensures depth { IfOk result (λ s. s.depth ≤ below - suc count) }
{
    if !outermost {
        return optional_size(alloc, lexicon, count, below, tokens);
    }
    let found = size_words(lexicon, tokens)?;
    if found.value.1 {
        return size(alloc, lexicon, count, below, found.rest);
    }
    optional_size(alloc, lexicon, count, below, found.rest)
}
