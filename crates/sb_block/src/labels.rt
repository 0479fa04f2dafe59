//! Labels, and what else begins with a name (C99 6.8.1).
ghost use Rattle.std.specs.Prelude.{◌≡◌, ◌<◌, true};
ghost use Rattle.sb_lexicon.specs.Meaning.{GivesAs};
ghost use Rattle.sb_statement.specs.Meaning.{nested};
ghost use Rattle.sb_statement.specs.Parts as part;
ghost use Rattle.sb_statement.specs.Readers as spec;
ghost use Rattle.sb_tree.specs.Plain.{plain_stmt};

use crate::statements::statement_within;
use sb_base::{Names, Token};
use sb_lexicon::{Read, ReadFault, take_keyword, take_mark, take_member};
use sb_scope::Typedefs;
use sb_sign::{Keyword, Mark};
use sb_statement::{constant, evaluated, is_case_next, is_label_next, reading, unlabelled};
use sb_tree::Stmt;
use std::alloc::Global;

/// A label and its statement.
#[cycle(statement)]
#[tactic(auto, unfolding(sb_statement::specs::Readers::labelled))]
fn labelled<'a>(
    alloc: Global,
    names: &Names,
    types: &Typedefs,
    cases: bool,
    below: u32,
    tokens: &'a [Token],
) -> Result<Read<'a, Stmt>, ReadFault>
    requires shallow { below < 200 }
    ensures { GivesAs plain_stmt
        (nested spec.labelled names.now.texts below types.now cases tokens.now) result }
{
    let lexicon = reading(names, types);
    let label = take_member(&lexicon, tokens)?;
    let colon = take_mark(&lexicon, Mark::Colon, label.rest)?;
    let body = statement_within(alloc, names, types, cases, below, colon.rest)?;
    let statement = Box::new(alloc, body.value)?;
    Ok(Read {
        value: Stmt::label(label.value.0, statement, label.value.1),
        rest: body.rest,
    })
}

/// `case`
#[cycle(statement)]
#[tactic(auto, unfolding(sb_statement::specs::Readers::case_of))]
fn case_of<'a>(
    alloc: Global,
    names: &Names,
    types: &Typedefs,
    below: u32,
    tokens: &'a [Token],
) -> Result<Read<'a, Stmt>, ReadFault>
    requires shallow { below < 200 }
    ensures { GivesAs plain_stmt (nested spec.case_of names.now.texts below types.now tokens.now)
        result }
{
    let lexicon = reading(names, types);
    let word = take_keyword(&lexicon, Keyword::Case, tokens)?;
    let value = constant(alloc, names, types, below, word.rest)?;
    let colon = take_mark(&lexicon, Mark::Colon, value.rest)?;
    let body = statement_within(alloc, names, types, true, below, colon.rest)?;
    let statement = Box::new(alloc, body.value)?;
    let value = Box::into_inner(value.tree);
    Ok(Read {
        value: Stmt::case(value, statement, word.value.place),
        rest: body.rest,
    })
}

/// `default`
#[cycle(statement)]
#[tactic(auto, unfolding(sb_statement::specs::Readers::default_of))]
fn default_of<'a>(
    alloc: Global,
    names: &Names,
    types: &Typedefs,
    below: u32,
    tokens: &'a [Token],
) -> Result<Read<'a, Stmt>, ReadFault>
    requires shallow { below < 200 }
    ensures { GivesAs plain_stmt (nested spec.default_of names.now.texts below types.now tokens.now)
        result }
{
    let lexicon = reading(names, types);
    let word = take_keyword(&lexicon, Keyword::Default, tokens)?;
    let colon = take_mark(&lexicon, Mark::Colon, word.rest)?;
    let body = statement_within(alloc, names, types, true, below, colon.rest)?;
    let statement = Box::new(alloc, body.value)?;
    Ok(Read {
        value: Stmt::default_case(statement, word.value.place),
        rest: body.rest,
    })
}

/// `case` and `default` in the block of a `switch`, or an expression.
#[cycle(statement)]
pub(crate) fn cased<'a>(
    alloc: Global,
    names: &Names,
    types: &Typedefs,
    cases: bool,
    below: u32,
    tokens: &'a [Token],
) -> Result<Read<'a, Stmt>, ReadFault>
    requires shallow { below < 200 }
    ensures { GivesAs plain_stmt
        (nested part.cased names.now.texts below types.now cases tokens.now) result }
{
    let lexicon = reading(names, types);
    let is_case = is_case_next(&lexicon, cases, Keyword::Case, tokens);
    let is_default = is_case_next(&lexicon, cases, Keyword::Default, tokens);
    if !is_case && !is_default {
        return evaluated(alloc, names, types, below, tokens);
    }
    if below == 0 {
        return Err(ReadFault::too_deep(tokens));
    }
    if is_case {
        return case_of(alloc, names, types, below, tokens);
    }
    default_of(alloc, names, types, below, tokens)
}

/// A statement that begins with a name.
#[cycle(statement)]
#[tactic(auto, unfolding(sb_statement::specs::Readers::by_name))]
pub(crate) fn by_name<'a>(
    alloc: Global,
    names: &Names,
    types: &Typedefs,
    cases: bool,
    below: u32,
    tokens: &'a [Token],
) -> Result<Read<'a, Stmt>, ReadFault>
    requires shallow { below < 200 }
    ensures { GivesAs plain_stmt
        (nested spec.by_name names.now.texts below cases types.now tokens.now) result }
{
    if below == 0 {
        return Err(ReadFault::too_deep(tokens));
    }
    if is_label_next(&reading(names, types), tokens) {
        return labelled(alloc, names, types, cases, below, tokens);
    }
    unlabelled(alloc, names, types, below, tokens)
}
