//! Iteration (C99 6.8.5).
ghost use Rattle.std.specs.Prelude.{◌≡◌, ◌<◌, false};
ghost use Rattle.sb_lexicon.specs.Meaning.{GivesAs};
ghost use Rattle.sb_statement.specs.Meaning.{nested, plain_first};
ghost use Rattle.sb_statement.specs.Readers as spec;
ghost use Rattle.sb_tree.specs.Plain.{plain_stmt};

use crate::statements::statement_within;
use sb_base::{Names, Place, Token};
use sb_lexicon::{Read, ReadFault, take_keyword, take_mark};
use sb_scope::Typedefs;
use sb_sign::{Keyword, Mark};
use sb_statement::{First, first_within, in_parentheses, optional, reading, semicolon};
use sb_tree::Stmt;
use std::alloc::Global;

/// `while`
#[cycle(statement)]
#[tactic(auto, unfolding(sb_statement::specs::Readers::repeated))]
pub(crate) fn repeated<'a>(
    alloc: Global,
    names: &Names,
    types: &Typedefs,
    below: u32,
    tokens: &'a [Token],
) -> Result<Read<'a, Stmt>, ReadFault>
    requires shallow { below < 200 }
    ensures { GivesAs plain_stmt (nested spec.repeated names.now.texts below types.now tokens.now)
        result }
{
    let word = take_keyword(&reading(names, types), Keyword::While, tokens)?;
    let test = in_parentheses(alloc, names, types, below, word.rest)?;
    let body = statement_within(alloc, names, types, false, below, test.rest)?;
    let statement = Box::new(alloc, body.value)?;
    Ok(Read {
        value: Stmt::while_loop(test.value, statement, word.value.place),
        rest: body.rest,
    })
}

/// `do`
#[cycle(statement)]
#[tactic(auto, unfolding(sb_statement::specs::Readers::done_first))]
pub(crate) fn done_first<'a>(
    alloc: Global,
    names: &Names,
    types: &Typedefs,
    below: u32,
    tokens: &'a [Token],
) -> Result<Read<'a, Stmt>, ReadFault>
    requires shallow { below < 200 }
    ensures { GivesAs plain_stmt (nested spec.done_first names.now.texts below types.now tokens.now)
        result }
{
    let lexicon = reading(names, types);
    let word = take_keyword(&lexicon, Keyword::Do, tokens)?;
    let body = statement_within(alloc, names, types, false, below, word.rest)?;
    let statement = Box::new(alloc, body.value)?;
    let end = take_keyword(&lexicon, Keyword::While, body.rest)?;
    let test = in_parentheses(alloc, names, types, below, end.rest)?;
    let last = semicolon(names, types, below, test.rest)?;
    Ok(Read {
        value: Stmt::do_loop(statement, test.value, word.value.place),
        rest: last.rest,
    })
}

/// The later parts of a `for`, which see what its first part declares.
#[cycle(statement)]
#[tactic(auto, unfolding(sb_statement::specs::Readers::stepped))]
fn stepped<'a>(
    alloc: Global,
    names: &Names,
    below: u32,
    place: Place,
    first: Read<'a, First>,
) -> Result<Read<'a, Stmt>, ReadFault>
    requires shallow { below < 200 }
    ensures { GivesAs plain_stmt
        (nested spec.stepped names.now.texts below place (plain_first first.entry.value)
        first.entry.rest.now) result }
{
    let Read {
        value,
        rest: tokens,
    } = first;
    let First { statement, types } = value;
    let test = optional(alloc, names, &types, below, Mark::Semicolon, tokens)?;
    let semicolon = take_mark(&reading(names, &types), Mark::Semicolon, test.rest)?;
    let step = optional(
        alloc,
        names,
        &types,
        below,
        Mark::CloseParenthesis,
        semicolon.rest,
    )?;
    let close = take_mark(&reading(names, &types), Mark::CloseParenthesis, step.rest)?;
    let body = statement_within(alloc, names, &types, false, below, close.rest)?;
    let repeated = Box::new(alloc, body.value)?;
    Ok(Read {
        value: Stmt::for_loop(statement, test.value, step.value, repeated, place),
        rest: body.rest,
    })
}

/// `for`
#[cycle(statement)]
#[tactic(auto, unfolding(sb_statement::specs::Readers::iterated))]
pub(crate) fn iterated<'a>(
    alloc: Global,
    names: &Names,
    types: &Typedefs,
    below: u32,
    tokens: &'a [Token],
) -> Result<Read<'a, Stmt>, ReadFault>
    requires shallow { below < 200 }
    ensures { GivesAs plain_stmt (nested spec.iterated names.now.texts below types.now tokens.now)
        result }
{
    let lexicon = reading(names, types);
    let word = take_keyword(&lexicon, Keyword::For, tokens)?;
    let open = take_mark(&lexicon, Mark::OpenParenthesis, word.rest)?;
    let first = first_within(alloc, names, types, below, open.rest)?;
    stepped(alloc, names, below, word.value.place, first)
}
