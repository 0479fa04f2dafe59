//! What is read of the members of a structure, and their annotations (C99 6.7.2.1).
ghost use Rattle.std.specs.Prelude.{◌≡◌, ◌≤◌, ◌<◌, [], ◌∷◌, ◌++◌, max, IfOk, IfErr};
ghost use Rattle.sb_lexicon.specs.declared.reading.ReadFault.TheVariants.{Memory};
ghost use Rattle.sb_sal.specs.declared.bearer.Bearer.TheVariants as bearer;
ghost use Rattle.sb_sal.specs.Meaning.{AreNotesKnown, ReadsNotes};
ghost use Rattle.sb_sal.specs.Readers.{notes_reader};
ghost use Rattle.sb_sal.specs.Spellings.{may_stand};
ghost use Rattle.sb_tree.specs.Plain.{plain_decl, plain_decls, plain_notes};
ghost use Rattle.sb_derivation.specs.Meaning.{IsDeclKnown, IsListKnown};
ghost use Rattle.sb_derivation.specs.Parts as part;
ghost use Rattle.sb_specifier.specs.Specified.{reading};

use sb_base::{Names, Token};
use sb_lexicon::{Lexicon, ReadFault};
use sb_sal::{Bearer, NoteList, notes_within};
use sb_scope::Typedefs;
use sb_specifier::Later;
use sb_tree::Decl;
use std::alloc::{AllocError, Global};

/// Declarations, how deep the deepest is, and the typedef names in force behind them.
#[derive(Drop)]
pub struct Declarations {
    pub list: Vec<Decl>,
    pub depth: u32,
    pub types: Typedefs,
}

/// The declarators of one declaration, how deep the deepest is, and the tokens after them.
#[derive(Drop)]
pub struct DeclList<'a> {
    pub list: Vec<Decl>,
    pub depth: u32,
    pub rest: &'a [Token],
}

/// A declarator with its type, how deep it is, and the tokens after it.
#[derive(Drop)]
pub struct FoundDecl<'a> {
    pub tree: Decl,
    pub depth: u32,
    pub rest: &'a [Token],
}

/// What the declarators of one declaration of members share: the typedef names in force before it and behind its
/// specifiers, its tokens from the annotations on, and the type of a later declarator.
#[derive(Clone, Copy)]
pub struct Heading<'a> {
    pub outer: &'a Typedefs,
    pub types: &'a Typedefs,
    pub noted: &'a [Token],
    pub later: Later,
}

/// The declarators so far with one more.
pub fn with_decl<'a>(so_far: DeclList<'_>, next: FoundDecl<'a>) -> Result<DeclList<'a>, AllocError>
    requires list { IsListKnown so_far }
    requires next { IsDeclKnown next }
    ensures list { IfOk result
        (λ ds. plain_decls ds.list.items ≡ plain_decls so_far.entry.list.items
        ++ (plain_decl next.entry.tree ∷ [])) }
    ensures known { IfOk result (λ ds. IsListKnown ds) }
    ensures depth { IfOk result (λ ds. ds.depth ≡ max so_far.entry.depth next.entry.depth) }
    ensures rest { IfOk result (λ ds. ds.rest.now ≡ next.entry.rest.now) }
{
    let mut list = so_far.list;
    list.push(next.tree)?;
    Ok(DeclList {
        list,
        depth: so_far.depth.max(next.depth),
        rest: next.rest,
    })
}

/// The annotations of members.
pub fn member_notes<'a>(
    alloc: Global,
    names: &Names,
    below: u32,
    types: &Typedefs,
    tokens: &'a [Token],
) -> Result<NoteList<'a>, ReadFault>
    requires shallow { below ≤ 200 }
    ensures read { ReadsNotes (notes_reader (reading names.now.texts types.now) below
        (may_stand (reading names.now.texts types.now) bearer.Member) tokens.now) result }
    ensures list { IfOk result
        (λ ns. part.notes_at names.now.texts types.now bearer.Member below tokens.now
        ≡ plain_notes ns.list.items) }
    ensures depth { IfOk result (λ ns. ns.depth ≤ below) }
{
    let lexicon = Lexicon {
        names,
        types,
        in_note: false,
    };
    notes_within(alloc, &lexicon, Bearer::Member, below, tokens)
}

/// The annotations of the declaration again: their trees have no copies.
pub fn notes_again<'a>(
    alloc: Global,
    names: &Names,
    below: u32,
    heading: &Heading<'a>,
) -> Result<NoteList<'a>, ReadFault>
    requires shallow { below ≤ 200 }
    ensures list { IfOk result
        (λ ns. part.notes_at names.now.texts heading.now.outer.now bearer.Member below
        heading.now.noted.now ≡ plain_notes ns.list.items) }
    ensures known { IfOk result (λ ns. AreNotesKnown ns) }
    ensures depth { IfOk result (λ ns. ns.depth ≤ below) }
    ensures memory { IfErr result (λ e. e ≡ Memory) }
{
    match member_notes(alloc, names, below, heading.outer, heading.noted) {
        Ok(notes) => Ok(notes),
        // They were read before, so that only memory may be wanting.
        Err(_fault) => Err(ReadFault::Memory),
    }
}
