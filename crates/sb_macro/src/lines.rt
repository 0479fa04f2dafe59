//! The line of a `#define`.
ghost use Rattle.std.specs.Prelude.{◌≡◌, ◌&&◌, not, if◌then◌else◌, None, Ok, [], IfOk, MatchResult};
ghost use Rattle.std.specs.Option.{option_copied};
ghost use Rattle.sb_macro.specs.Definition.{definition, first_hash, is_hash_mark, listed_as, lists_params, parameters, parts, part_of, replacement_list, with_body, IsFault};
ghost use Rattle.sb_macro.specs.Expansion.{is_word};
ghost use Rattle.sb_macro.specs.Macros.{holds, macro_of};
ghost use Rattle.sb_macro.specs.Reading.{AreRead};

use crate::halt::{Halt, nowhere};
use crate::marks::{Mark, mark_of};
use crate::stored::{Part, Stored, holds};
use sb_base::{Name, Names, Place, PpKind};
use sb_lex::PpToken;
use std::alloc::{AllocError, Global};

/// What may come next in a list of parameters.
#[derive(Clone, Copy, PartialEq, Eq)]
pub enum Expected {
    /// A parameter, or the end of an empty list.
    First,
    /// A parameter.
    Next,
    /// A comma, or the end.
    Separator,
}

/// What a piece is in a list of parameters.
#[derive(Clone, Copy, PartialEq, Eq)]
pub enum Listed {
    Named,
    Separated,
    Ended,
    /// It makes the list bad, and is refused with this number.
    Bad(u16),
}

/// The parameters of a function-like macro, and what follows their `)`.
#[derive(Drop)]
pub struct Parameters<'a> {
    pub params: Vec<Name>,
    pub rest: &'a [PpToken],
}

fn is_new(params: &[Name], token: PpToken) -> bool
    ensures { result ≡ (is_word token.kind && not (holds params.now token.text)) }
{
    token.kind == PpKind::Word && !holds(params, token.text)
}

fn listed_as(mark: Mark, expected: Expected, is_new: bool) -> Listed
    ensures { result ≡ listed_as mark expected is_new }
{
    match (mark, expected) {
        (Mark::Dots, Expected::First) => Listed::Bad(15),
        (Mark::Dots, Expected::Next) => Listed::Bad(15),
        (Mark::Close, Expected::First) => Listed::Ended,
        (Mark::Close, Expected::Separator) => Listed::Ended,
        (Mark::Comma, Expected::Separator) => Listed::Separated,
        (Mark::Other, Expected::First) => listed_name(is_new),
        (Mark::Other, Expected::Next) => listed_name(is_new),
        _ => Listed::Bad(11),
    }
}

fn listed_name(is_new: bool) -> Listed
    ensures { result ≡ (if is_new then Listed.Named else Listed.Bad 11) }
{
    if is_new {
        Listed::Named
    } else {
        Listed::Bad(11)
    }
}

/// Reads the parameters of a list whose `(` stands at `begin`, up to their `)`.
fn read_parameters<'a>(
    alloc: Global,
    names: &Names,
    begin: Place,
    list: &'a [PpToken],
) -> Result<Parameters<'a>, Halt>
    ensures { MatchResult result
        (AreRead (parameters names.now.texts Expected.First [] begin list.now))
        (IsFault (parameters names.now.texts Expected.First [] begin list.now)) }
{
    let mut params = Vec::new(alloc);
    let mut expected = Expected::First;
    let mut last = begin;
    let mut rest = list;
    while let Some((token, after)) = rest.split_first() {
        let mark = mark_of(names, token.text);
        match listed_as(mark, expected, is_new(params.as_slice(), *token)) {
            Listed::Named => {
                params.push(token.text)?;
                expected = Expected::Separator;
            }
            Listed::Separated => expected = Expected::Next,
            Listed::Ended => {
                return Ok(Parameters {
                    params,
                    rest: after,
                });
            }
            Listed::Bad(number) => return Err(Halt::Refused(number, token.place)),
        }
        last = token.place;
        rest = after;
    }
    Err(Halt::Refused(11, last))
}

fn is_hash(mark: Mark) -> bool
    ensures { result ≡ is_hash_mark mark }
{
    mark == Mark::Hash
}

/// The first `#` or `##`.
fn first_hash<'a>(names: &Names, list: &'a [PpToken]) -> Option<&'a PpToken>
    ensures { option_copied result ≡ first_hash names.now.texts list.now }
{
    list.iter()
        .find(|token| is_hash(mark_of(names, token.text)))
}

fn part_of(spaced: bool, token: PpToken) -> Part
    ensures { result ≡ part_of spaced token }
{
    Part {
        kind: token.kind,
        text: token.text,
        spaced,
    }
}

fn parts(alloc: Global, list: &[PpToken]) -> Result<Vec<Part>, AllocError>
    ensures { IfOk result (λ all. all.items ≡ parts list.now) }
{
    let mut all = Vec::new(alloc);
    let Some((first, others)) = list.split_first() else {
        return Ok(all);
    };
    all.push(part_of(false, *first))?;
    for token in others {
        all.push(part_of(token.spaced, *token))?;
    }
    Ok(all)
}

/// Reads a replacement list.
fn replacement_list(alloc: Global, names: &Names, list: &[PpToken]) -> Result<Vec<Part>, Halt>
    ensures { MatchResult result (λ body. replacement_list names.now.texts list.now ≡ Ok body.items)
        (IsFault (replacement_list names.now.texts list.now)) }
{
    if let Some(token) = first_hash(names, list) {
        return Err(Halt::Refused(15, token.place));
    }
    let body = parts(alloc, list)?;
    Ok(body)
}

/// Whether a `(` that stands here opens a list of parameters: it stands directly behind the name.
fn lists_params(names: &Names, token: PpToken) -> bool
    ensures { result ≡ lists_params names.now.texts token }
{
    mark_of(names, token.text) == Mark::Open && !token.spaced
}

/// Reads an object-like macro, whose name was read.
fn object_like(alloc: Global, names: &Names, name: Name, list: &[PpToken]) -> Result<Stored, Halt>
    ensures { MatchResult result
        (λ stored. with_body name None (replacement_list names.now.texts list.now)
        ≡ Ok (macro_of stored))
        (IsFault (with_body name None (replacement_list names.now.texts list.now))) }
{
    let body = replacement_list(alloc, names, list)?;
    Ok(Stored {
        name,
        params: None,
        body,
    })
}

/// Reads the line of a `#define`.
pub fn definition(alloc: Global, names: &Names, line: &[PpToken]) -> Result<Stored, Halt>
    ensures { MatchResult result
        (λ stored. definition names.now.texts line.now ≡ Ok (macro_of stored))
        (IsFault (definition names.now.texts line.now)) }
{
    let Some((name, rest)) = line.split_first() else {
        return Err(Halt::Refused(11, nowhere()));
    };
    if name.kind != PpKind::Word {
        return Err(Halt::Refused(11, name.place));
    }
    let Some((open, list)) = rest.split_first() else {
        return object_like(alloc, names, name.text, rest);
    };
    if !lists_params(names, *open) {
        return object_like(alloc, names, name.text, rest);
    }
    let found = read_parameters(alloc, names, open.place, list)?;
    let body = replacement_list(alloc, names, found.rest)?;
    Ok(Stored {
        name: name.text,
        params: Some(found.params),
        body,
    })
}
