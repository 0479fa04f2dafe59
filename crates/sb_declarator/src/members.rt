//! The members of a structure (C99 6.7.2.1).
ghost use Rattle.std.specs.Prelude.{◌≡◌, ◌≤◌, ◌<◌, ◌+◌, [], not, IfOk};
ghost use Rattle.sb_parse.specs.Parser.{looped};
ghost use Rattle.sb_lexicon.specs.Lexicon.{is_mark};
ghost use Rattle.sb_sal.specs.declared.bearer.Bearer.TheVariants as bearer;
ghost use Rattle.sb_sal.specs.Meaning.{AreNotesKnown};
ghost use Rattle.sb_sign.specs.declared.sign.Mark.TheVariants as mark;
ghost use Rattle.sb_tree.specs.Plain.{plain_decls, plain_notes, plain_type};
ghost use Rattle.sb_derivation.specs.Parts.{notes_at};
ghost use Rattle.sb_derivation.specs.Meaning.{plain_declarations, AreKnown, IsListKnown, ReadsDeclarations, ReadsDecl, ReadsDecls, ReadsMembers};
ghost use Rattle.sb_declarator.specs.Meaning.{inside, heading_members};
ghost use Rattle.sb_specifier.specs.Meaning.{plain_later, IsBaseKnown};
ghost use Rattle.sb_declarator.specs.Parts as part;
ghost use Rattle.sb_declarator.specs.Readers as spec;
ghost use Rattle.sb_specifier.specs.Specified.{reading, one_if};

use crate::declarators::declarator_within;
use crate::specifier_list::specifiers;
use sb_base::{Names, Token};
use sb_derivation::{
    DeclList, Declarations, FoundDecl, Heading, member_notes, notes_again, simple_decl, with_decl,
};
use sb_lexicon::{Feature, Lexicon, Read, ReadFault};
use sb_sal::NoteList;
use sb_scope::Typedefs;
use sb_sign::Mark;
use sb_specifier::{Based, NOWHERE, Seat, barred, is_mark_next, is_other_next, take_mark};
use std::alloc::Global;

/// A declarator of members on its type.
#[cycle(declaring)]
#[tactic(auto, using(sb_derivation::proofs::Growing::depth_of_simple))]
fn member_declarator<'a>(
    alloc: Global,
    names: &Names,
    below: u32,
    types: &Typedefs,
    notes: NoteList<'_>,
    base: Based,
    tokens: &'a [Token],
) -> Result<FoundDecl<'a>, ReadFault>
    requires shallow { below < 200 }
    requires notes { AreNotesKnown notes }
    requires few { notes.depth ≤ below }
    requires base { IsBaseKnown base }
    requires fits { base.depth ≤ below }
    ensures read { ReadsDecl (part.member_declarator names.now.texts below
        (plain_notes notes.entry.list.items) types.now (plain_type base.tree.value) tokens.now)
        result }
    ensures depth { IfOk result (λ d. d.depth ≤ below + 1) }
{
    if is_mark_next(names, Mark::Colon, tokens) {
        return Err(ReadFault::lacks(Feature::BitField, tokens));
    }
    let lexicon = Lexicon {
        names,
        types,
        in_note: false,
    };
    let room = below - base.depth;
    let found = declarator_within(alloc, &lexicon, false, false, below, room, tokens)?;
    if is_mark_next(names, Mark::Colon, found.rest) {
        return Err(ReadFault::lacks(Feature::BitField, found.rest));
    }
    let count = found.value.pieces.len() as u32;
    let depth = found.value.depth.max(base.depth + count);
    let tree = simple_decl(alloc, notes.list, base.tree, found.value, NOWHERE)?;
    Ok(FoundDecl {
        tree,
        depth: notes.depth.max(depth) + 1,
        rest: found.rest,
    })
}

/// A comma and the member behind it.
#[cycle(declaring)]
fn next_member<'a>(
    alloc: Global,
    names: &Names,
    below: u32,
    heading: &Heading,
    tokens: &'a [Token],
) -> Result<FoundDecl<'a>, ReadFault>
    requires shallow { below < 200 }
    requires fits { 1 + one_if heading.now.later.constant ≤ below }
    ensures read { ReadsDecl (heading_members part.later_member names.now.texts below heading.now
        tokens.now) result }
    ensures depth { IfOk result (λ d. d.depth ≤ below + 1) }
{
    let comma = take_mark(names, Mark::Comma, tokens)?;
    let notes = notes_again(alloc, names, below, heading)?;
    let base = heading.later.based(alloc)?;
    member_declarator(alloc, names, below, heading.types, notes, base, comma.rest)
}

/// As many commas as there are, each with one more member.
#[cycle(declaring)]
fn next_members<'a>(
    alloc: Global,
    names: &Names,
    below: u32,
    heading: &Heading,
    first: DeclList<'a>,
) -> Result<DeclList<'a>, ReadFault>
    requires shallow { below < 200 }
    requires fits { 1 + one_if heading.now.later.constant ≤ below }
    requires known { IsListKnown first }
    requires low { first.depth ≤ below + 1 }
    ensures read { ReadsDecls (looped (is_mark (reading names.now.texts []) mark.Comma)
        (heading_members part.next_member names.now.texts below heading.now)
        (plain_decls first.entry.list.items) first.entry.rest.now) result }
    ensures depth { IfOk result (λ ds. ds.depth ≤ below + 1) }
{
    let most = first.rest.len();
    let mut found = first;
    for _turn in 0..most {
        if !is_mark_next(names, Mark::Comma, found.rest) {
            return Ok(found);
        }
        let next = next_member(alloc, names, below, heading, found.rest)?;
        found = with_decl(found, next)?;
    }
    Ok(found)
}

/// The declarators of a declaration of members, behind the declarations before it.
#[cycle(declaring)]
#[tactic(auto, using(sb_specifier::proofs::Growing::joined_decls, sb_specifier::proofs::Growing::depth_of_joined_decls))]
fn declared_members<'a>(
    alloc: Global,
    names: &Names,
    below: u32,
    heading: &Heading,
    notes: NoteList<'_>,
    base: Based,
    so_far: DeclList<'a>,
) -> Result<DeclList<'a>, ReadFault>
    requires shallow { below < 200 }
    requires notes { AreNotesKnown notes }
    requires few { notes.depth ≤ below }
    requires same { notes_at names.now.texts heading.now.outer.now bearer.Member below
        heading.now.noted.now ≡ plain_notes notes.list.items }
    requires base { IsBaseKnown base }
    requires room { base.depth ≤ below }
    requires fits { 1 + one_if heading.now.later.constant ≤ below }
    requires known { IsListKnown so_far }
    requires low { so_far.depth ≤ below + 1 }
    ensures read { ReadsMembers heading.now.types.now
        (part.declared_members names.now.texts below (plain_notes notes.entry.list.items)
        heading.now.types.now (plain_type base.tree.value) (plain_later heading.now.later)
        (plain_decls so_far.entry.list.items) so_far.entry.rest.now) result }
    ensures depth { IfOk result (λ ds. ds.depth ≤ below + 1) }
{
    let first = member_declarator(alloc, names, below, heading.types, notes, base, so_far.rest)?;
    let mut one = Vec::new(alloc);
    one.push(first.tree)?;
    let start = DeclList {
        list: one,
        depth: first.depth,
        rest: first.rest,
    };
    let all = next_members(alloc, names, below, heading, start)?;
    let end = take_mark(names, Mark::Semicolon, all.rest)?;
    let mut more = all.list;
    let mut list = so_far.list;
    list.append(&mut more)?;
    Ok(DeclList {
        list,
        depth: so_far.depth.max(all.depth),
        rest: end.rest,
    })
}

/// One declaration of members.
#[cycle(declaring)]
#[tactic(auto, unfolding(crate::specs::Readers::member))]
fn member<'a>(
    alloc: Global,
    names: &Names,
    below: u32,
    so_far: Declarations,
    tokens: &'a [Token],
) -> Result<Read<'a, Declarations>, ReadFault>
    requires shallow { below < 200 }
    requires some { 1 ≤ below }
    requires known { AreKnown so_far }
    requires low { so_far.depth ≤ below + 1 }
    ensures read { ReadsDeclarations
        (inside spec.member names.now.texts below (plain_declarations so_far) tokens.now) result }
    ensures depth { IfOk result (λ r. r.value.depth ≤ below + 1) }
{
    let outer = so_far.types;
    let notes = member_notes(alloc, names, below, &outer, tokens)?;
    let found = specifiers(alloc, names, Seat::Structure, below, &outer, notes.rest)?;
    let later = found.value.later();
    let specified = found.value;
    let base = specified
        .said
        .based(alloc, specified.depth, specified.constant)?;
    let heading = Heading {
        outer: &outer,
        types: &specified.types,
        noted: tokens,
        later,
    };
    let before = DeclList {
        list: so_far.list,
        depth: so_far.depth,
        rest: found.rest,
    };
    let all = declared_members(alloc, names, below, &heading, notes, base, before)?;
    Ok(Read {
        value: Declarations {
            list: all.list,
            depth: all.depth,
            types: specified.types,
        },
        rest: all.rest,
    })
}

/// As many declarations of members as there are before the closing brace.
#[cycle(declaring)]
fn more_members<'a>(
    alloc: Global,
    names: &Names,
    below: u32,
    first: Declarations,
    tokens: &'a [Token],
) -> Result<Read<'a, Declarations>, ReadFault>
    requires shallow { below < 200 }
    requires some { 1 ≤ below }
    requires known { AreKnown first }
    requires low { first.depth ≤ below + 1 }
    ensures read { ReadsDeclarations
        (looped (λ t. not (is_mark (reading names.now.texts []) mark.CloseBrace t))
        (inside spec.member names.now.texts below) (plain_declarations first) tokens.now) result }
    ensures depth { IfOk result (λ r. r.value.depth ≤ below + 1) }
{
    let mut found = Read {
        value: first,
        rest: tokens,
    };
    for _turn in 0..tokens.len() {
        if !is_other_next(names, Mark::CloseBrace, found.rest) {
            return Ok(found);
        }
        found = member(alloc, names, below, found.value, found.rest)?;
    }
    Ok(found)
}

/// The members of a structure, each at most `below + 1` deep, where these typedef names are in force.
#[cycle(declaring)]
#[tactic(auto, unfolding(crate::specs::Readers::members))]
fn some_members<'a>(
    alloc: Global,
    names: &Names,
    below: u32,
    types: Typedefs,
    tokens: &'a [Token],
) -> Result<Read<'a, Declarations>, ReadFault>
    requires shallow { below < 200 }
    requires some { 1 ≤ below }
    ensures read { ReadsDeclarations
        (inside spec.members names.now.texts below types tokens.now) result }
    ensures depth { IfOk result (λ r. r.value.depth ≤ below + 1) }
{
    let none = Declarations {
        list: Vec::new(alloc),
        depth: 0,
        types,
    };
    let first = member(alloc, names, below, none, tokens)?;
    more_members(alloc, names, below, first.value, first.rest)
}

/// The members of a structure, each at most `left` deep.
#[cycle(declaring)]
pub(crate) fn members<'a>(
    alloc: Global,
    names: &Names,
    left: u32,
    types: Typedefs,
    tokens: &'a [Token],
) -> Result<Read<'a, Declarations>, ReadFault>
    requires shallow { left ≤ 200 }
    ensures read { ReadsDeclarations
        ((spec.parts names.now.texts left 0).members types tokens.now) result }
    ensures depth { IfOk result (λ r. r.value.depth ≤ left) }
{
    if left < 2 {
        let lexicon = Lexicon {
            names,
            types: &types,
            in_note: false,
        };
        return Err(barred(&lexicon, Seat::Structure, tokens));
    }
    some_members(alloc, names, left - 1, types, tokens)
}
