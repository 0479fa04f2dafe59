//! The parameters of functions (C99 6.7.5.3).
ghost use Rattle.std.specs.Prelude.{◌≤◌, ◌<◌, ◌-◌, ◌+◌, [], suc, IfOk};
ghost use Rattle.sb_parse.specs.Parser.{looped};
ghost use Rattle.sb_lexicon.specs.Lexicon.{is_mark as marked};
ghost use Rattle.sb_lexicon.specs.Meaning.{meant};
ghost use Rattle.sb_sal.specs.Meaning.{AreNotesKnown};
ghost use Rattle.sb_sign.specs.declared.sign.Mark.TheVariants as mark;
ghost use Rattle.sb_tree.specs.Plain.{plain_decls, plain_notes, plain_type};
ghost use Rattle.sb_declarator.specs.Declarators as part;
ghost use Rattle.sb_derivation.specs.Meaning.{plain_declarations, AreKnown, IsListKnown, ReadsDeclarations};
ghost use Rattle.sb_declarator.specs.Meaning.{inside};
ghost use Rattle.sb_specifier.specs.Meaning.{IsBaseKnown};
ghost use Rattle.sb_declarator.specs.Readers as spec;
ghost use Rattle.sb_specifier.specs.Specified.{reading};

use crate::declarators::declarator_within;
use crate::specifier_list::specifiers;
use sb_base::{Names, Place, Token};
use sb_derivation::{
    DeclList, Declarations, beyond_limit, first_place, is_close_second, is_old_next, only_void,
    parameter_notes, simple_decl, void_parameters, without_name,
};
use sb_lexicon::{Feature, Lexicon, Read, ReadFault, is_keyword_next};
use sb_sal::NoteList;
use sb_scope::Typedefs;
use sb_sign::{Keyword, Mark};
use sb_specifier::{Based, Seat, is_mark_next, take_mark};
use std::alloc::Global;

// ---- one parameter

/// The declarator of a parameter on its type, behind the parameters before it.
#[cycle(declaring)]
#[tactic(auto, using(sb_specifier::proofs::Growing::more_decls, sb_specifier::proofs::Growing::depth_of_more_decls, sb_derivation::proofs::Growing::depth_of_simple))]
fn parameter_behind<'a>(
    alloc: Global,
    lexicon: &Lexicon,
    below: u32,
    notes: NoteList<'_>,
    base: Based,
    place: Place,
    so_far: DeclList<'a>,
) -> Result<Read<'a, Declarations>, ReadFault>
    requires shallow { below < 200 }
    requires notes { AreNotesKnown notes }
    requires few { notes.depth ≤ below }
    requires base { IsBaseKnown base }
    requires fits { base.depth ≤ below }
    requires known { IsListKnown so_far }
    requires low { so_far.depth ≤ below + 1 }
    ensures read { ReadsDeclarations
        (part.parameter_behind (meant lexicon.now) below (plain_notes notes.entry.list.items)
        (plain_type base.tree.value) place (plain_decls so_far.entry.list.items)
        so_far.entry.rest.now) result }
    ensures depth { IfOk result (λ r. r.value.depth ≤ below + 1) }
{
    let room = below - base.depth;
    let found = declarator_within(alloc, lexicon, false, true, below, room, so_far.rest)?;
    let count = found.value.pieces.len() as u32;
    let depth = found.value.depth.max(base.depth + count);
    let types = without_name(alloc, found.value.name, lexicon.types)?;
    let tree = simple_decl(alloc, notes.list, base.tree, found.value, place)?;
    let mut list = so_far.list;
    list.push(tree)?;
    Ok(Read {
        value: Declarations {
            list,
            depth: so_far.depth.max(notes.depth.max(depth) + 1),
            types,
        },
        rest: found.rest,
    })
}

/// One more parameter.
#[cycle(declaring)]
#[tactic(auto, unfolding(crate::specs::Readers::parameter), using(crate::proofs::steps::Parameters::first_place_in))]
fn parameter<'a>(
    alloc: Global,
    names: &Names,
    below: u32,
    so_far: Declarations,
    tokens: &'a [Token],
) -> Result<Read<'a, Declarations>, ReadFault>
    requires shallow { below < 200 }
    requires some { 1 ≤ below }
    requires known { AreKnown so_far }
    requires low { so_far.depth ≤ below + 1 }
    ensures read { ReadsDeclarations
        (inside spec.parameter names.now.texts below (plain_declarations so_far) tokens.now)
        result }
    ensures depth { IfOk result (λ r. r.value.depth ≤ below + 1) }
{
    let outer = so_far.types;
    let notes = parameter_notes(alloc, names, below, &outer, tokens)?;
    let found = specifiers(alloc, names, Seat::Prototype, below, &outer, notes.rest)?;
    let place = first_place(tokens, notes.rest, found.rest);
    let specified = found.value;
    let base = specified
        .said
        .based(alloc, specified.depth, specified.constant)?;
    let lexicon = Lexicon {
        names,
        types: &specified.types,
        in_note: false,
    };
    let before = DeclList {
        list: so_far.list,
        depth: so_far.depth,
        rest: found.rest,
    };
    parameter_behind(alloc, &lexicon, below, notes, base, place, before)
}

// ---- lists of parameters

/// One more parameter behind a comma, where 32 are not there yet.
#[cycle(declaring)]
#[tactic(auto, unfolding(crate::specs::Readers::another_parameter, crate::specs::Readers::beyond_limit), using(crate::proofs::steps::Parameters::count_of_decls))]
fn another_parameter<'a>(
    alloc: Global,
    names: &Names,
    below: u32,
    so_far: Declarations,
    tokens: &'a [Token],
) -> Result<Read<'a, Declarations>, ReadFault>
    requires shallow { below < 200 }
    requires some { 1 ≤ below }
    requires known { AreKnown so_far }
    requires low { so_far.depth ≤ below + 1 }
    ensures read { ReadsDeclarations
        (inside spec.another_parameter names.now.texts below (plain_declarations so_far) tokens.now)
        result }
    ensures depth { IfOk result (λ r. r.value.depth ≤ below + 1) }
{
    if so_far.list.len() >= 32 {
        return Err(beyond_limit(names, &so_far.types, tokens));
    }
    parameter(alloc, names, below, so_far, tokens)
}

/// A comma and one more parameter, of at most 32.
#[cycle(declaring)]
#[tactic(auto, unfolding(crate::specs::Readers::next_parameter))]
fn next_parameter<'a>(
    alloc: Global,
    names: &Names,
    below: u32,
    so_far: Declarations,
    tokens: &'a [Token],
) -> Result<Read<'a, Declarations>, ReadFault>
    requires shallow { below < 200 }
    requires some { 1 ≤ below }
    requires known { AreKnown so_far }
    requires low { so_far.depth ≤ below + 1 }
    ensures read { ReadsDeclarations
        (inside spec.next_parameter names.now.texts below (plain_declarations so_far) tokens.now)
        result }
    ensures depth { IfOk result (λ r. r.value.depth ≤ below + 1) }
{
    let comma = take_mark(names, Mark::Comma, tokens)?;
    if is_mark_next(names, Mark::Ellipsis, comma.rest) {
        return Err(ReadFault::lacks(Feature::VariableArguments, comma.rest));
    }
    another_parameter(alloc, names, below, so_far, comma.rest)
}

/// As many commas as there are, each with one more parameter.
#[cycle(declaring)]
fn more_parameters<'a>(
    alloc: Global,
    names: &Names,
    below: u32,
    first: Declarations,
    tokens: &'a [Token],
) -> Result<Read<'a, Declarations>, ReadFault>
    requires shallow { below < 200 }
    requires some { 1 ≤ below }
    requires known { AreKnown first }
    requires low { first.depth ≤ below + 1 }
    ensures read { ReadsDeclarations
        (looped (marked (reading names.now.texts []) mark.Comma)
        (inside spec.next_parameter names.now.texts below) (plain_declarations first) tokens.now)
        result }
    ensures depth { IfOk result (λ r. r.value.depth ≤ below + 1) }
{
    let mut found = Read {
        value: first,
        rest: tokens,
    };
    for _turn in 0..tokens.len() {
        if !is_mark_next(names, Mark::Comma, found.rest) {
            return Ok(found);
        }
        found = next_parameter(alloc, names, below, found.value, found.rest)?;
    }
    Ok(found)
}

/// Parameters, each at most `below + 1` deep, where these typedef names are in force.
#[cycle(declaring)]
#[tactic(auto, unfolding(crate::specs::Readers::parameters_at))]
fn parameters_at<'a>(
    alloc: Global,
    names: &Names,
    below: u32,
    types: &Typedefs,
    tokens: &'a [Token],
) -> Result<Read<'a, Declarations>, ReadFault>
    requires shallow { below < 200 }
    requires some { 1 ≤ below }
    ensures read { ReadsDeclarations
        (inside spec.parameters_at names.now.texts below types.now tokens.now) result }
    ensures depth { IfOk result (λ r. r.value.depth ≤ below + 1) }
{
    let none = Declarations {
        list: Vec::new(alloc),
        depth: 0,
        types: types.clone()?,
    };
    let first = parameter(alloc, names, below, none, tokens)?;
    more_parameters(alloc, names, below, first.value, first.rest)
}

/// The parameters of a function under so many pieces, which have room.
#[cycle(declaring)]
fn inner_parameters<'a>(
    alloc: Global,
    lexicon: &Lexicon,
    below: u32,
    count: u32,
    tokens: &'a [Token],
) -> Result<Read<'a, Declarations>, ReadFault>
    requires shallow { below < 200 }
    requires room { count + 3 ≤ below }
    ensures read { ReadsDeclarations
        (part.inner_parameters (meant lexicon.now) below count tokens.now) result }
    ensures depth { IfOk result (λ r. r.value.depth ≤ below - suc count) }
{
    parameters_at(
        alloc,
        lexicon.names,
        below - (count + 2),
        lexicon.types,
        tokens,
    )
}

/// The parameters of a function under so many pieces, which are no old definition's.
#[cycle(declaring)]
fn some_parameters<'a>(
    alloc: Global,
    lexicon: &Lexicon,
    below: u32,
    count: u32,
    tokens: &'a [Token],
) -> Result<Read<'a, Declarations>, ReadFault>
    requires shallow { below < 200 }
    requires few { count < below }
    ensures read { ReadsDeclarations
        (part.some_parameters (meant lexicon.now) below count tokens.now) result }
    ensures depth { IfOk result (λ r. r.value.depth ≤ below - suc count) }
{
    if below - (count + 1) < 2 {
        return only_void(alloc, lexicon, tokens);
    }
    if !is_keyword_next(lexicon, Keyword::Void, tokens) {
        return inner_parameters(alloc, lexicon, below, count, tokens);
    }
    if is_close_second(lexicon, tokens) {
        return void_parameters(alloc, lexicon, tokens);
    }
    inner_parameters(alloc, lexicon, below, count, tokens)
}

/// The parameters of a function under so many pieces.
#[cycle(declaring)]
pub(crate) fn parameters<'a>(
    alloc: Global,
    lexicon: &Lexicon,
    below: u32,
    count: u32,
    tokens: &'a [Token],
) -> Result<Read<'a, Declarations>, ReadFault>
    requires shallow { below < 200 }
    requires few { count < below }
    ensures read { ReadsDeclarations (part.parameters (meant lexicon.now) below count tokens.now)
        result }
    ensures depth { IfOk result (λ r. r.value.depth ≤ below - suc count) }
{
    if is_old_next(lexicon, tokens) {
        return Err(ReadFault::lacks(Feature::OldDefinition, tokens));
    }
    some_parameters(alloc, lexicon, below, count, tokens)
}
