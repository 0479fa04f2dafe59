//! Functions and translation units (C99 6.9).
ghost use Rattle.std.specs.Prelude.{◌≡◌, ◌≤◌, ◌<◌, true, IfOk};
ghost use Rattle.sb_parse.specs.Parser.{at_next};
ghost use Rattle.sb_lexicon.specs.Meaning.{GivesAs};
ghost use Rattle.sb_specifier.specs.Meaning.{IsKnown, IsRoomy};
ghost use Rattle.sb_declare.specs.Openings.{plain_counted, plain_declared, plain_opening};
ghost use Rattle.sb_unit.specs.Parts as part;
ghost use Rattle.sb_unit.specs.Readers as spec;

use sb_base::{Names, Token};
use sb_block::block_within;
use sb_declare::{
    Counted, Declared, Opening, definition, first_declarator, is_nameless_next, nameless,
    names_inside, opening_within, rest_of_declaration,
};
use sb_lexicon::{Read, ReadFault, is_mark};
use sb_scope::Typedefs;
use sb_sign::Mark;
use sb_statement::reading;
use std::alloc::{AllocError, Global};

/// The typedef names in force in the body of a function.
fn body_names(
    alloc: Global,
    names: &Names,
    below: u32,
    opening: &Opening,
    first: &Counted,
) -> Result<Typedefs, AllocError>
    ensures { IfOk result
        (λ ns. ns
        ≡ part.names_in names.now.texts below (plain_opening names.now.texts below opening.now)
        (plain_counted opening.now.specified.types first.now).0) }
{
    names_inside(alloc, opening, first)
}

/// The body of a function, in which its parameters hide typedef names.
#[tactic(auto, unfolding(crate::specs::Readers::defined))]
fn defined<'a>(
    alloc: Global,
    names: &Names,
    below: u32,
    opening: Opening,
    first: Counted,
    tokens: &'a [Token],
) -> Result<Read<'a, Declared>, ReadFault>
    requires shallow { below < 200 }
    requires known { IsKnown opening.specified }
    requires fits { IsRoomy below opening.specified }
    ensures { GivesAs plain_declared
        (spec.defined names.now.texts below (plain_opening names.now.texts below opening.entry)
        (plain_counted opening.entry.specified.types first) tokens.now) result }
{
    let types = body_names(alloc, names, below, &opening, &first)?;
    let body = block_within(alloc, names, &types, false, below, tokens)?;
    Ok(Read {
        value: definition(alloc, names, below, opening, first, body.value)?,
        rest: body.rest,
    })
}

/// Whether the body of a function is next.
fn is_body_next(
    names: &Names,
    below: u32,
    opening: &Opening,
    first: &Counted,
    tokens: &[Token],
) -> bool
    ensures { result ≡ at_next
        (spec.defines names.now.texts below
        (plain_counted opening.now.specified.types first.now).0) tokens.now }
{
    match tokens.first() {
        Some(token) => {
            first.declarator.declares_function()
                && is_mark(&reading(names, opening.outer), Mark::OpenBrace, token)
        }
        None => false,
    }
}

/// What stands behind the first declarator.
#[tactic(auto, unfolding(crate::specs::Readers::external_behind))]
fn external_behind<'a>(
    alloc: Global,
    names: &Names,
    below: u32,
    opening: Opening,
    first: Counted,
    tokens: &'a [Token],
) -> Result<Read<'a, Declared>, ReadFault>
    requires shallow { below < 200 }
    requires known { IsKnown opening.specified }
    requires fits { IsRoomy below opening.specified }
    ensures { GivesAs plain_declared
        (spec.external_behind names.now.texts below
        (plain_opening names.now.texts below opening.entry)
        (plain_counted opening.entry.specified.types first) tokens.now) result }
{
    if is_body_next(names, below, &opening, &first, tokens) {
        return defined(alloc, names, below, opening, first, tokens);
    }
    rest_of_declaration(alloc, names, below, opening, first, tokens)
}

/// A declaration, or a function with its body.
fn one_external<'a>(
    alloc: Global,
    names: &Names,
    types: &Typedefs,
    below: u32,
    tokens: &'a [Token],
) -> Result<Read<'a, Declared>, ReadFault>
    requires shallow { below < 200 }
    requires some { 1 ≤ below }
    ensures { GivesAs plain_declared (part.one_external names.now.texts below types.now tokens.now)
        result }
{
    let opening = opening_within(alloc, names, types, below, tokens)?;
    if is_nameless_next(&reading(names, types), opening.rest) {
        return nameless(alloc, names, below, opening.value, opening.rest);
    }
    let first = first_declarator(alloc, names, below, &opening.value, opening.rest)?;
    external_behind(alloc, names, below, opening.value, first.value, first.rest)
}

/// One declaration or function more.
fn external<'a>(
    alloc: Global,
    names: &Names,
    below: u32,
    so_far: Read<'a, Declared>,
) -> Result<Read<'a, Declared>, ReadFault>
    requires shallow { below < 200 }
    requires some { 1 ≤ below }
    ensures { GivesAs plain_declared
        (spec.external names.now.texts below (plain_declared so_far.entry.value)
        so_far.entry.rest.now) result }
{
    let Read {
        value,
        rest: tokens,
    } = so_far;
    let Declared { mut list, types } = value;
    let new = one_external(alloc, names, &types, below, tokens)?;
    let Declared {
        list: mut more,
        types,
    } = new.value;
    list.append(&mut more)?;
    Ok(Read {
        value: Declared { list, types },
        rest: new.rest,
    })
}

/// Whether there is a next token.
fn is_any_next(tokens: &[Token]) -> bool
    ensures { result ≡ at_next (λ t. true) tokens.now }
{
    tokens.first().is_some()
}

/// As many declarations and functions as there are.
fn externals<'a>(
    alloc: Global,
    names: &Names,
    below: u32,
    start: Read<'a, Declared>,
) -> Result<Read<'a, Declared>, ReadFault>
    requires shallow { below < 200 }
    requires some { 1 ≤ below }
    ensures { GivesAs plain_declared
        (part.externals names.now.texts below (plain_declared start.entry.value)
        start.entry.rest.now) result }
{
    let most = start.rest.len();
    let mut found = start;
    for _turn in 0..most {
        if !is_any_next(found.rest) {
            return Ok(found);
        }
        found = external(alloc, names, below, found)?;
    }
    Ok(found)
}

/// A whole list of tokens.
pub fn unit<'a>(
    alloc: Global,
    names: &Names,
    tokens: &'a [Token],
) -> Result<Read<'a, Declared>, ReadFault>
    ensures { GivesAs plain_declared (spec.unit_reader names.now.texts tokens.now) result }
{
    let start = Read {
        value: Declared {
            list: Vec::new(alloc),
            types: Typedefs::none(),
        },
        rest: tokens,
    };
    externals(alloc, names, 199, start)
}
