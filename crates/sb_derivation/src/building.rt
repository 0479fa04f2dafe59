//! Members and parameters put together of what was read.
ghost use Rattle.std.specs.Prelude.{◌≡◌, [], IfOk};
ghost use Rattle.sb_tree.specs.Plain.{plain_decl, plain_notes, plain_type};
ghost use Rattle.sb_derivation.specs.Declarators.{plain_declarator};
ghost use Rattle.sb_derivation.specs.Parts.{simple_decl};

use crate::declarator::Declarator;
use sb_base::Place;
use sb_operand::typed;
use sb_tree::{Decl, Note, Storage, TypeName};
use std::alloc::{AllocError, Global};

/// A member or a parameter. Its place is that of its name, or this one.
pub fn simple_decl(
    alloc: Global,
    notes: Vec<Note>,
    base: Box<TypeName>,
    declarator: Declarator,
    place: Place,
) -> Result<Decl, AllocError>
    ensures { IfOk result
        (λ d. plain_decl d ≡ simple_decl (plain_notes notes.items) (plain_type base.value)
        (plain_declarator [] declarator) place) }
{
    let tree = typed(alloc, base, declarator.pieces)?;
    let (name, place) = match declarator.name {
        Some((name, place)) => (Some(name), place),
        None => (None, place),
    };
    Ok(Decl::new(
        notes,
        Storage::Plain,
        Box::into_inner(tree),
        name,
        place,
        None,
        None,
    ))
}
