//! The first part of a `for` (C99 6.8.5.3).
ghost use Rattle.std.specs.Prelude.{◌≡◌, ◌<◌, ◌≤◌};
ghost use Rattle.sb_lexicon.specs.Meaning.{meant, GivesAs, IsFault};
ghost use Rattle.sb_statement.specs.Meaning.{nested, plain_first};
ghost use Rattle.sb_statement.specs.Parts as part;
ghost use Rattle.sb_statement.specs.Readers as spec;

use crate::declarations::declared;
use crate::expressions::evaluated;
use crate::lexemes::{is_declaration_next, is_first_next, reading};
use crate::values::{DeclaredStatement, First};
use sb_base::{Names, Token};
use sb_lexicon::{Lexicon, Read, ReadFault, is_mark_next, take_mark};
use sb_scope::Typedefs;
use sb_sign::Mark;
use sb_specifier::{Seat, barred};
use std::alloc::Global;

/// The first part of a `for` with its semicolon.
#[tactic(auto, unfolding(crate::specs::Readers::first, crate::specs::Readers::semicolon))]
fn first<'a>(
    alloc: Global,
    names: &Names,
    types: &Typedefs,
    below: u32,
    tokens: &'a [Token],
) -> Result<Read<'a, First>, ReadFault>
    requires shallow { below < 200 }
    ensures { GivesAs plain_first (nested spec.first names.now.texts below types.now tokens.now)
        result }
{
    let lexicon = reading(names, types);
    if is_mark_next(&lexicon, Mark::Semicolon, tokens) {
        let end = take_mark(&lexicon, Mark::Semicolon, tokens)?;
        let types = types.clone()?;
        return Ok(Read {
            value: First {
                statement: None,
                types,
            },
            rest: end.rest,
        });
    }
    if is_declaration_next(&lexicon, tokens) {
        let found = declared(alloc, names, types, below, tokens)?;
        let DeclaredStatement { statement, types } = found.value;
        let statement = Box::new(alloc, statement)?;
        return Ok(Read {
            value: First {
                statement: Some(statement),
                types,
            },
            rest: found.rest,
        });
    }
    let found = evaluated(alloc, names, types, below, tokens)?;
    let statement = Box::new(alloc, found.value)?;
    let types = types.clone()?;
    Ok(Read {
        value: First {
            statement: Some(statement),
            types,
        },
        rest: found.rest,
    })
}

/// Why there is no first part of a `for` where none has room.
fn no_first(lexicon: &Lexicon, tokens: &[Token]) -> ReadFault
    ensures { IsFault (part.no_first (meant lexicon.now) tokens.now) result }
{
    if is_first_next(lexicon, tokens) {
        return ReadFault::too_deep(tokens);
    }
    barred(lexicon, Seat::Scope, tokens)
}

/// The first part of a `for`, at most `left` deep.
pub fn first_within<'a>(
    alloc: Global,
    names: &Names,
    types: &Typedefs,
    left: u32,
    tokens: &'a [Token],
) -> Result<Read<'a, First>, ReadFault>
    requires shallow { left ≤ 200 }
    ensures { GivesAs plain_first
        ((spec.statements names.now.texts left).first types.now tokens.now) result }
{
    if left == 0 {
        return Err(no_first(&reading(names, types), tokens));
    }
    first(alloc, names, types, left - 1, tokens)
}
