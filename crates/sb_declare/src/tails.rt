//! What stands behind a declarator in a scope (C99 6.7, 6.7.8), and the declaration that it makes.
ghost use Rattle.std.specs.Prelude.{◌≡◌, ◌<◌, ◌+◌, ◌++◌, [], ◌∷◌, length, IfOk};
ghost use Rattle.sb_operand.specs.Meaning.{plain_pieces};
ghost use Rattle.sb_operand.specs.Pieces as pieces;
ghost use Rattle.sb_lexicon.specs.Meaning.{GivesAs};
ghost use Rattle.sb_parse.specs.Texts.{with_text};
ghost use Rattle.sb_tree.specs.Plain.{plain_decl, plain_decls, plain_notes, plain_type};
ghost use Rattle.sb_declare.specs.Openings.{plain_counted, plain_listing, ReadsTail};
ghost use Rattle.sb_declare.specs.Openings as part;
ghost use Rattle.sb_specifier.specs.Specified.{reading};

use crate::building::{declaration_of, pieces_of};
use crate::openings::{front, initialised};
use crate::sharing::{Counted, Listing, Shared, added, declared_by, notes_again};
use sb_base::{Names, Token};
use sb_derivation::Declarator;
use sb_lexicon::{Lexicon, Read, ReadFault};
use sb_operand::typed;
use sb_scope::Typedefs;
use sb_tree::{Decl, Init, Note, Storage, TypeName};
use std::alloc::{AllocError, Global};

/// The type that a declarator makes, and the typedef names in force behind it.
#[derive(Drop)]
pub(crate) struct NamedType {
    pub(crate) type_name: Box<TypeName>,
    pub(crate) types: Typedefs,
}

/// What stands behind a declarator: the annotations that are read again, an initialiser where there is one, its tokens,
/// how many tokens stand behind the annotations then, and the tokens after it.
#[derive(Drop)]
pub(crate) struct Tail<'a> {
    pub(crate) notes: Vec<Note>,
    pub(crate) init: Option<Init>,
    pub(crate) front: &'a [Token],
    pub(crate) count: usize,
    pub(crate) rest: &'a [Token],
}

/// The type that a declarator makes of another, where these typedef names are in force before it.
fn made_of(
    alloc: Global,
    storage: Storage,
    base: Box<TypeName>,
    types: Typedefs,
    declarator: Declarator,
) -> Result<NamedType, AllocError>
    ensures type_name { IfOk result
        (λ n. plain_type n.type_name.value
        ≡ pieces.typed (plain_type base.value) (plain_pieces declarator.pieces.items)) }
    ensures types { IfOk result
        (λ n. n.types ≡ part.declared_as storage declarator.name types) }
{
    let declared = declarator.name;
    let type_name = typed(alloc, base, pieces_of(declarator))?;
    Ok(NamedType {
        type_name,
        types: declared_by(alloc, storage, declared, types)?,
    })
}

/// What stands behind a declarator, and the annotations again. What owns most comes last.
fn tail_behind<'a>(
    alloc: Global,
    names: &Names,
    below: u32,
    shared: &Shared,
    types: &Typedefs,
    declared: usize,
    count: usize,
    tokens: &'a [Token],
) -> Result<Tail<'a>, ReadFault>
    requires shallow { below < 200 }
    ensures read { ReadsTail (with_text (part.initialised (reading names.now.texts types.now) below)
        tokens.now) result }
    ensures notes { IfOk result
        (λ t. plain_notes t.notes.items ≡ part.notes_of names.now.texts below shared.now) }
    ensures count { IfOk result (λ t. t.count ≡ count + length t.front.now) }
{
    // All tokens can be counted, so that the sum below is not too large.
    let _most = added(count, tokens.len())?;
    let notes = notes_again(alloc, names, below, shared, declared)?;
    let lexicon = Lexicon {
        names,
        types,
        in_note: false,
    };
    let initial = initialised(alloc, &lexicon, below, tokens)?;
    let front = front(tokens, initial.rest);
    Ok(Tail {
        notes,
        init: initial.tree,
        front,
        count: count + front.len(),
        rest: initial.rest,
    })
}

/// One more declaration on a list.
fn one_more(
    before: Vec<Decl>,
    tree: Decl,
    types: Typedefs,
    count: usize,
) -> Result<Listing, AllocError>
    ensures { IfOk result
        (λ l. plain_listing l
        ≡ record {
          list = plain_decls before.items ++ (plain_decl tree ∷ []);
          types
              = types;
          count = count;
        }) }
{
    let mut list = before;
    list.push(tree)?;
    Ok(Listing { list, types, count })
}

/// What may follow a declarator: an initialiser.
pub(crate) fn behind<'a>(
    alloc: Global,
    names: &Names,
    below: u32,
    shared: &Shared,
    base: Box<TypeName>,
    so_far: Listing,
    found: Read<'a, Counted>,
) -> Result<Read<'a, Listing>, ReadFault>
    requires shallow { below < 200 }
    ensures read { GivesAs plain_listing
        (part.behind names.now.texts below (part.notes_of names.now.texts below shared.now)
        shared.now.storage (plain_type base.value) (plain_listing so_far).list so_far.types
        (plain_counted so_far.types found.entry.value) found.entry.rest.now) result }
{
    let storage = shared.storage;
    let count = found.value.count;
    let declarator = found.value.declarator;
    let declared = declarator.name;
    let made = made_of(alloc, storage, base, so_far.types, declarator)?;
    let types = &made.types;
    let tail = tail_behind(
        alloc,
        names,
        below,
        shared,
        types,
        so_far.list.len(),
        count,
        found.rest,
    )?;
    let tree = declaration_of(
        tail.notes,
        storage,
        made.type_name,
        declared,
        tail.init,
        None,
    );
    Ok(Read {
        value: one_more(so_far.list, tree, made.types, tail.count)?,
        rest: tail.rest,
    })
}
