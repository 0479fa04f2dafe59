//! Definitions of functions (C99 6.9.1), once their body is read.
ghost use Rattle.std.specs.Prelude.{◌≡◌, ◌<◌, IfOk, IfErr};
ghost use Rattle.sb_lexicon.specs.declared.reading.ReadFault.TheVariants.{Memory};
ghost use Rattle.sb_tree.specs.Plain.{plain_stmt};
ghost use Rattle.sb_derivation.specs.Declarators.{plain_declarator};
ghost use Rattle.sb_specifier.specs.Meaning.{plain_specified, IsKnown, IsRoomy};
ghost use Rattle.sb_declare.specs.Openings.{plain_counted, plain_declared, plain_opening};
ghost use Rattle.sb_declare.specs.Openings as part;
ghost use Rattle.sb_specifier.specs.Specified as specified;

use crate::building::{declaration_of, pieces_of};
use crate::declarations::{Declared, alone, shared};
use crate::openings::Opening;
use crate::sharing::{Counted, declared_by, notes_again};
use sb_base::Names;
use sb_lexicon::ReadFault;
use sb_operand::typed;
use sb_scope::Typedefs;
use sb_tree::Stmt;
use std::alloc::{AllocError, Global};

/// The definition of a function with this body. Its only fault is want of memory.
pub fn definition(
    alloc: Global,
    names: &Names,
    below: u32,
    opening: Opening,
    first: Counted,
    body: Stmt,
) -> Result<Declared, ReadFault>
    requires shallow { below < 200 }
    requires known { IsKnown opening.specified }
    requires fits { IsRoomy below opening.specified }
    ensures value { IfOk result
        (λ ds. plain_declared ds
        ≡ part.definition names.now.texts below (plain_opening names.now.texts below opening.entry)
        (plain_counted opening.entry.specified.types first).0 (plain_stmt body)) }
    ensures memory { IfErr result (λ e. e ≡ Memory) }
{
    let common = shared(&opening);
    let notes = notes_again(alloc, names, below, &common, 0)?;
    let declared = first.declarator.name;
    let specified = opening.specified;
    let base = specified
        .said
        .based(alloc, specified.depth, specified.constant)?;
    let type_name = typed(alloc, base.tree, pieces_of(first.declarator))?;
    let types = declared_by(alloc, common.storage, declared, specified.types)?;
    let tree = declaration_of(notes, common.storage, type_name, declared, None, Some(body));
    Ok(alone(alloc, tree, types)?)
}

/// The typedef names in force in the body of a function.
pub fn names_inside(
    alloc: Global,
    opening: &Opening,
    first: &Counted,
) -> Result<Typedefs, AllocError>
    ensures { IfOk result
        (λ ns. ns
        ≡ part.declared_as (specified.storage_of (plain_specified opening.now.specified))
        first.now.declarator.name
        (plain_declarator opening.now.specified.types first.now.declarator).inner) }
{
    let before = match &first.declarator.inner {
        Some(inner) => inner,
        None => &opening.specified.types,
    };
    let types = before.clone()?;
    declared_by(
        alloc,
        opening.specified.storage(),
        first.declarator.name,
        types,
    )
}
