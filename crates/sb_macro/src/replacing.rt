//! What stands in place of a macro's name.
ghost use Rattle.std.specs.Prelude.{◌≡◌, ◌++◌, IfOk, OnOk};
ghost use Rattle.sb_macro.specs.Macros.{macro_of};
ghost use Rattle.sb_macro.specs.Replacement.{part_token, argument_token, argument, standing, with_lead, replacement};
ghost use Rattle.sb_macro.specs.Tokens.{Tok, tok_of, toks, fulls_of};

use crate::marked::{Marked, Tokens, all_names};
use crate::stored::{Part, Stored};
use sb_base::{Name, Place};
use sb_lex::PpToken;
use std::alloc::{AllocError, Global};
use std::collections::VecDeque;

/// Where a replacement stands, and the names that its tokens may no longer expand besides their own.
#[derive(Clone, Copy)]
struct Spot<'a> {
    place: Place,
    hidden: &'a [Name],
}

/// A piece of a replacement list.
fn part_token(alloc: Global, spot: &Spot, part: Part) -> Result<Marked, AllocError>
    ensures { IfOk result (λ m. tok_of m ≡ part_token spot.now.place spot.now.hidden.now part) }
{
    let hidden = Vec::from_slice(alloc, spot.hidden)?;
    Ok(Marked {
        token: PpToken {
            kind: part.kind,
            text: part.text,
            place: spot.place,
            first: false,
            spaced: part.spaced,
        },
        hidden,
    })
}

/// A token of an argument.
fn argument_token(
    alloc: Global,
    spot: &Spot,
    spaced: bool,
    marked: &Marked,
) -> Result<Marked, AllocError>
    ensures { IfOk result
        (λ m. tok_of m ≡ argument_token spot.now.place spot.now.hidden.now spaced
        (tok_of marked.now)) }
{
    let hidden = all_names(alloc, marked.hidden.as_slice(), spot.hidden)?;
    Ok(Marked {
        token: PpToken {
            kind: marked.token.kind,
            text: marked.token.text,
            place: spot.place,
            first: false,
            spaced,
        },
        hidden,
    })
}

/// Adds an expanded argument in place of its parameter.
fn add_argument(
    alloc: Global,
    spot: &Spot,
    spaced: bool,
    full: &[Marked],
    tokens: &mut Tokens,
) -> Result<(), AllocError>
    ensures { OnOk result
        (toks tokens.new.items ≡ toks tokens.old.items
        ++ argument spot.now.place spot.now.hidden.now spaced (toks full.now)) }
{
    let Some((lead, others)) = full.split_first() else {
        return Ok(());
    };
    tokens.push_back(argument_token(alloc, spot, spaced, lead)?)?;
    for marked in others {
        tokens.push_back(argument_token(alloc, spot, marked.token.spaced, marked)?)?;
    }
    Ok(())
}

/// Adds what stands in place of one piece of the replacement list.
fn add_part(
    alloc: Global,
    stored: &Stored,
    fulls: &[Vec<Marked>],
    spot: &Spot,
    part: Part,
    tokens: &mut Tokens,
) -> Result<(), AllocError>
    ensures { OnOk result
        (toks tokens.new.items ≡ toks tokens.old.items
        ++ standing (macro_of stored.now) (fulls_of fulls.now) spot.now.place spot.now.hidden.now
        part) }
{
    let Some(number) = stored.param(part.text) else {
        tokens.push_back(part_token(alloc, spot, part)?)?;
        return Ok(());
    };
    match fulls.get(number) {
        Some(full) => add_argument(alloc, spot, part.spaced, full, tokens),
        None => Ok(()),
    }
}

/// The tokens, the first of which stands as the replaced name did.
fn with_lead(tokens: Tokens, first: bool, spaced: bool) -> Result<Tokens, AllocError>
    ensures { IfOk result (λ all. toks all.items ≡ with_lead first spaced (toks tokens.items)) }
{
    let mut tokens = tokens;
    if let Some(mut front) = tokens.pop_front() {
        front.token.first = first;
        front.token.spaced = spaced;
        tokens.push_front(front)?;
    }
    Ok(tokens)
}

/// What stands in place of the name `name` of a macro, where `fulls` are the expanded arguments.
pub fn replacement(
    alloc: Global,
    stored: &Stored,
    fulls: &[Vec<Marked>],
    name: &Marked,
) -> Result<Tokens, AllocError>
    ensures { IfOk result
        (λ tokens. toks tokens.items ≡ replacement (macro_of stored.now) (fulls_of fulls.now)
        (tok_of name.now)) }
{
    let mut hidden = Vec::from_slice(alloc, name.hidden.as_slice())?;
    hidden.push(stored.name)?;
    let spot = Spot {
        place: name.token.place,
        hidden: hidden.as_slice(),
    };
    let mut tokens = VecDeque::new(alloc);
    for part in &stored.body {
        add_part(alloc, stored, fulls, &spot, *part, &mut tokens)?;
    }
    with_lead(tokens, name.token.first, name.token.spaced)
}

/// Puts the tokens before those that are still to be read.
pub fn put_before(pending: &mut Tokens, tokens: Tokens) -> Result<(), AllocError>
    ensures { OnOk result (pending.new.items ≡ tokens.items ++ pending.old.items) }
{
    let mut tokens = tokens;
    while let Some(marked) = tokens.pop_back() {
        pending.push_front(marked)?;
    }
    Ok(())
}
