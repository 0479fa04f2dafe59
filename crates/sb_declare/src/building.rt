//! Declarations put together of what was read. Nothing here fails, so that no path drops what is owned.
ghost use Rattle.std.specs.Prelude.{◌≡◌};
ghost use Rattle.std.specs.Option.{option_map};
ghost use Rattle.sb_tree.specs.Plain.{note_list, plain_decl, plain_init, plain_notes, plain_stmt, plain_type, optional_init, optional_stmt};
ghost use Rattle.sb_tree.specs.Trees as tree;
ghost use Rattle.sb_specifier.specs.Declaration.{nowhere};
ghost use Rattle.sb_specifier.specs.Readers as spec;

use sb_base::{Name, Place};
use sb_derivation::Declarator;
use sb_operand::Piece;
use sb_specifier::NOWHERE;
use sb_tree::{Decl, Init, Note, Stmt, Storage, TypeName};

/// What a declarator puts on a type.
pub(crate) fn pieces_of(declarator: Declarator) -> Vec<Piece>
    ensures { result.items ≡ declarator.pieces.items }
{
    declarator.pieces
}

/// The name that is declared, without its place.
fn name_in(declared: Option<(Name, Place)>) -> Option<Name>
    ensures { result ≡ spec.name_in declared }
{
    match declared {
        Some((name, _place)) => Some(name),
        None => None,
    }
}

/// Where the name stands that is declared.
fn place_in(declared: Option<(Name, Place)>) -> Place
    ensures { result ≡ spec.place_in nowhere declared }
{
    match declared {
        Some((_name, place)) => place,
        None => NOWHERE,
    }
}

/// A declaration in a scope of this type, with its initialiser or the body of a function.
pub(crate) fn declaration_of(
    notes: Vec<Note>,
    storage: Storage,
    type_name: Box<TypeName>,
    declared: Option<(Name, Place)>,
    init: Option<Init>,
    body: Option<Stmt>,
) -> Decl
    ensures { plain_decl result ≡ tree.Decl (note_list (plain_notes notes.items)) storage
        (plain_type type_name.value) (spec.name_in declared) (spec.place_in nowhere declared)
        (optional_init (option_map plain_init init)) (optional_stmt (option_map plain_stmt body)) }
{
    Decl::new(
        notes,
        storage,
        Box::into_inner(type_name),
        name_in(declared),
        place_in(declared),
        init,
        body,
    )
}
