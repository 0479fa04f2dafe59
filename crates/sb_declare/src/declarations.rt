//! Declarations in a scope (C99 6.7).
ghost use Rattle.std.specs.Prelude.{◌≡◌, ◌≤◌, ◌<◌, ◌+◌, [], ◌∷◌, IfOk};
ghost use Rattle.sb_lexicon.specs.Meaning.{GivesAs};
ghost use Rattle.sb_tree.specs.Plain.{plain_decl, plain_notes, plain_type};
ghost use Rattle.sb_tree.specs.Trees.{depth_of_type};
ghost use Rattle.sb_declarator.specs.Meaning.{inside};
ghost use Rattle.sb_specifier.specs.Meaning.{plain_later, plain_specified, type_in, IsKnown, IsRoomy};
ghost use Rattle.sb_declare.specs.Openings.{plain_counted, plain_declared, plain_listing, plain_opening};
ghost use Rattle.sb_declare.specs.Openings as part;
ghost use Rattle.sb_declare.specs.Readers as spec;
ghost use Rattle.sb_specifier.specs.Specified as specified;

use crate::openings::{Opening, is_nameless_next, opening_within};
use crate::sharing::{
    Counted, Listing, Shared, declarator_on, judged, next_declarators, notes_again,
};
use crate::tails::behind;
use sb_base::{Names, Token};
use sb_lexicon::{Lexicon, Read, ReadFault};
use sb_scope::Typedefs;
use sb_sign::Mark;
use sb_specifier::{Seat, Specified, barred, take_mark};
use sb_tree::{Decl, Note, Storage, TypeName};
use std::alloc::{AllocError, Global};

/// Declarations in a scope, and the typedef names in force behind them.
#[derive(Drop)]
pub struct Declared {
    pub list: Vec<Decl>,
    pub types: Typedefs,
}

/// What the declarators of a declaration share.
pub(crate) fn shared<'n, 'a>(opening: &Opening<'n, 'a>) -> Shared<'n, 'a>
    ensures outer { result.outer.now ≡ opening.now.outer.now }
    ensures tokens { result.tokens.now ≡ opening.now.tokens.now }
    ensures noted { result.noted.now ≡ opening.now.noted.now }
    ensures storage { result.storage
        ≡ specified.storage_of (plain_specified opening.now.specified) }
    ensures later { plain_later result.later
        ≡ specified.again (type_in (plain_specified opening.now.specified)) }
    ensures constant { specified.one_if result.later.constant
        ≤ specified.one_if opening.now.specified.constant }
{
    Shared {
        outer: opening.outer,
        tokens: opening.tokens,
        noted: opening.noted,
        storage: opening.specified.storage(),
        later: opening.specified.later(),
    }
}

/// How deep the type is that specifiers name.
fn depth_of(specified: &Specified) -> u32
    requires known { IsKnown specified.now }
    requires shallow { specified.now.depth ≤ 200 }
    ensures { result ≡ depth_of_type (type_in (plain_specified specified.now)) }
{
    if specified.constant {
        specified.depth + 1
    } else {
        specified.depth
    }
}

/// The first declarator of a declaration.
pub fn first_declarator<'a>(
    alloc: Global,
    names: &Names,
    below: u32,
    opening: &Opening,
    tokens: &'a [Token],
) -> Result<Read<'a, Counted>, ReadFault>
    requires shallow { below < 200 }
    requires known { IsKnown opening.now.specified }
    requires fits { IsRoomy below opening.now.specified }
    ensures read { GivesAs (plain_counted opening.now.specified.types)
        (part.first_declarator names.now.texts below
        (plain_opening names.now.texts below opening.now) tokens.now) result }
{
    let lexicon = Lexicon {
        names,
        types: &opening.specified.types,
        in_note: false,
    };
    let depth = depth_of(&opening.specified);
    let common = shared(opening);
    declarator_on(
        alloc,
        &lexicon,
        below,
        &common,
        depth,
        opening.count,
        tokens,
    )
}

/// One declaration alone.
pub(crate) fn alone(alloc: Global, tree: Decl, types: Typedefs) -> Result<Declared, AllocError>
    ensures { IfOk result
        (λ ds. plain_declared ds ≡ record { list = plain_decl tree ∷ []; types = types }) }
{
    let mut list = Vec::new(alloc);
    list.push(tree)?;
    Ok(Declared { list, types })
}

/// The semicolon behind the declarators of a declaration.
fn ended<'a>(names: &Names, all: Read<'a, Listing>) -> Result<Read<'a, Declared>, ReadFault>
    ensures read { GivesAs plain_declared
        (part.ended names.now.texts (plain_listing all.entry.value) all.entry.rest.now) result }
{
    let end = take_mark(names, Mark::Semicolon, all.rest)?;
    Ok(Read {
        value: Declared {
            list: all.value.list,
            types: all.value.types,
        },
        rest: end.rest,
    })
}

/// The declarations of one whose first declarator was read.
fn rest_behind<'a>(
    alloc: Global,
    names: &Names,
    below: u32,
    shared: &Shared,
    base: Box<TypeName>,
    types: Typedefs,
    first: Read<'a, Counted>,
) -> Result<Read<'a, Declared>, ReadFault>
    requires shallow { below < 200 }
    requires fits { 1 + specified.one_if shared.now.later.constant ≤ below }
    ensures read { GivesAs plain_declared
        (part.rest_behind names.now.texts below shared.now (plain_type base.value) types
        (plain_counted types first.entry.value) first.entry.rest.now) result }
{
    let none = Listing {
        list: Vec::new(alloc),
        types,
        count: 0,
    };
    let start = behind(alloc, names, below, shared, base, none, first)?;
    let all = next_declarators(alloc, names, below, shared, start)?;
    ended(names, all)
}

/// The rest of a declaration behind its first declarator.
pub fn rest_of_declaration<'a>(
    alloc: Global,
    names: &Names,
    below: u32,
    opening: Opening,
    first: Counted,
    tokens: &'a [Token],
) -> Result<Read<'a, Declared>, ReadFault>
    requires shallow { below < 200 }
    requires known { IsKnown opening.specified }
    requires fits { IsRoomy below opening.specified }
    ensures read { GivesAs plain_declared
        (inside spec.rest_of_declaration names.now.texts below
        (plain_opening names.now.texts below opening.entry)
        (plain_counted opening.entry.specified.types first) tokens.now) result }
{
    let common = shared(&opening);
    let specified = opening.specified;
    let base = specified
        .said
        .based(alloc, specified.depth, specified.constant)?;
    let found = Read {
        value: first,
        rest: tokens,
    };
    rest_behind(
        alloc,
        names,
        below,
        &common,
        base.tree,
        specified.types,
        found,
    )
}

/// The semicolon behind the specifiers of a declaration without a name, and its annotations again.
fn nameless_end<'a>(
    alloc: Global,
    names: &Names,
    below: u32,
    shared: &Shared,
    count: usize,
    tokens: &'a [Token],
) -> Result<Read<'a, (Token, Vec<Note>)>, ReadFault>
    requires shallow { below < 200 }
    ensures read { GivesAs (λ v. v.0)
        (part.nameless_end names.now.texts below shared.now count tokens.now) result }
    ensures notes { IfOk result
        (λ r. plain_notes r.value.1.items ≡ part.notes_of names.now.texts below shared.now) }
{
    judged(names, shared.noted, false, count, tokens)?;
    let end = take_mark(names, Mark::Semicolon, tokens)?;
    let notes = notes_again(alloc, names, below, shared, 0)?;
    Ok(Read {
        value: (end.value, notes),
        rest: end.rest,
    })
}

/// A declaration without a name.
fn unnamed(
    alloc: Global,
    notes: Vec<Note>,
    storage: Storage,
    specified: Specified,
) -> Result<Declared, AllocError>
    requires known { IsKnown specified }
    requires shallow { specified.depth ≤ 200 }
    ensures { IfOk result
        (λ ds. plain_declared ds ≡ part.nameless_of (plain_notes notes.items) storage
        (plain_specified specified)) }
{
    let place = specified.said.place();
    let base = specified
        .said
        .based(alloc, specified.depth, specified.constant)?;
    let type_name = Box::into_inner(base.tree);
    let tree = Decl::new(notes, storage, type_name, None, place, None, None);
    alone(alloc, tree, specified.types)
}

/// What stands behind the specifiers of a declaration without a name.
fn nameless_behind<'a>(
    alloc: Global,
    names: &Names,
    below: u32,
    shared: &Shared,
    specified: Specified,
    count: usize,
    tokens: &'a [Token],
) -> Result<Read<'a, Declared>, ReadFault>
    requires shallow { below < 200 }
    requires known { IsKnown specified }
    requires fits { IsRoomy below specified }
    ensures read { GivesAs plain_declared
        (part.nameless_behind names.now.texts below shared.now (plain_specified specified) count
        tokens.now) result }
{
    let end = nameless_end(alloc, names, below, shared, count, tokens)?;
    let (_semicolon, notes) = end.value;
    Ok(Read {
        value: unnamed(alloc, notes, shared.storage, specified)?,
        rest: end.rest,
    })
}

/// A declaration that declares no name: at the place of its type.
pub fn nameless<'a>(
    alloc: Global,
    names: &Names,
    below: u32,
    opening: Opening,
    tokens: &'a [Token],
) -> Result<Read<'a, Declared>, ReadFault>
    requires shallow { below < 200 }
    requires known { IsKnown opening.specified }
    requires fits { IsRoomy below opening.specified }
    ensures read { GivesAs plain_declared
        (part.nameless names.now.texts below (plain_opening names.now.texts below opening.entry)
        tokens.now) result }
{
    let common = shared(&opening);
    let count = opening.count;
    nameless_behind(
        alloc,
        names,
        below,
        &common,
        opening.specified,
        count,
        tokens,
    )
}

/// The declarators of a declaration, of which there is one at least.
fn named<'a>(
    alloc: Global,
    names: &Names,
    below: u32,
    opening: Opening,
    tokens: &'a [Token],
) -> Result<Read<'a, Declared>, ReadFault>
    requires shallow { below < 200 }
    requires known { IsKnown opening.specified }
    requires fits { IsRoomy below opening.specified }
    ensures read { GivesAs plain_declared
        (part.named names.now.texts below (plain_opening names.now.texts below opening.entry)
        tokens.now) result }
{
    let first = first_declarator(alloc, names, below, &opening, tokens)?;
    rest_of_declaration(alloc, names, below, opening, first.value, first.rest)
}

/// A declaration whose parts are at most `below` deep.
#[tactic(auto, unfolding(crate::specs::Readers::declaration_at))]
fn declaration_at<'a>(
    alloc: Global,
    names: &Names,
    types: &Typedefs,
    below: u32,
    tokens: &'a [Token],
) -> Result<Read<'a, Declared>, ReadFault>
    requires shallow { below < 200 }
    requires some { 1 ≤ below }
    ensures read { GivesAs plain_declared
        (inside spec.declaration_at names.now.texts below types.now tokens.now) result }
{
    let lexicon = Lexicon {
        names,
        types,
        in_note: false,
    };
    let opening = opening_within(alloc, names, types, below, tokens)?;
    if is_nameless_next(&lexicon, opening.rest) {
        return nameless(alloc, names, below, opening.value, opening.rest);
    }
    named(alloc, names, below, opening.value, opening.rest)
}

/// A declaration that is at most `left` deep, where these typedef names are in force.
pub fn declaration<'a>(
    alloc: Global,
    names: &Names,
    types: &Typedefs,
    left: u32,
    tokens: &'a [Token],
) -> Result<Read<'a, Declared>, ReadFault>
    requires shallow { left ≤ 200 }
    ensures read { GivesAs plain_declared
        (spec.declaration_reader names.now.texts left types.now tokens.now) result }
{
    if left < 2 {
        let lexicon = Lexicon {
            names,
            types,
            in_note: false,
        };
        return Err(barred(&lexicon, Seat::Scope, tokens));
    }
    declaration_at(alloc, names, types, left - 1, tokens)
}
