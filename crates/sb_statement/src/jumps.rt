//! Jumps (C99 6.8.6).
ghost use Rattle.std.specs.Prelude.{◌≡◌, ◌<◌};
ghost use Rattle.sb_lexicon.specs.Meaning.{GivesAs};
ghost use Rattle.sb_statement.specs.Meaning.{nested};
ghost use Rattle.sb_statement.specs.Readers as spec;
ghost use Rattle.sb_tree.specs.Plain.{plain_stmt};

use crate::expressions::optional;
use crate::lexemes::reading;
use sb_base::{Names, Token};
use sb_lexicon::{Read, ReadFault, take_keyword, take_mark, take_member};
use sb_scope::Typedefs;
use sb_sign::{Keyword, Mark};
use sb_tree::Stmt;
use std::alloc::Global;

/// `goto`
#[tactic(auto, unfolding(crate::specs::Readers::gone, crate::specs::Readers::semicolon))]
pub fn gone<'a>(
    names: &Names,
    types: &Typedefs,
    below: u32,
    tokens: &'a [Token],
) -> Result<Read<'a, Stmt>, ReadFault>
    ensures { GivesAs plain_stmt (nested spec.gone names.now.texts below types.now tokens.now)
        result }
{
    let lexicon = reading(names, types);
    let word = take_keyword(&lexicon, Keyword::Goto, tokens)?;
    let label = take_member(&lexicon, word.rest)?;
    let end = take_mark(&lexicon, Mark::Semicolon, label.rest)?;
    Ok(Read {
        value: Stmt::goto(label.value.0, label.value.1, word.value.place),
        rest: end.rest,
    })
}

/// `break`
#[tactic(auto, unfolding(crate::specs::Readers::broken, crate::specs::Readers::semicolon))]
pub fn broken<'a>(
    names: &Names,
    types: &Typedefs,
    below: u32,
    tokens: &'a [Token],
) -> Result<Read<'a, Stmt>, ReadFault>
    ensures { GivesAs plain_stmt (nested spec.broken names.now.texts below types.now tokens.now)
        result }
{
    let lexicon = reading(names, types);
    let word = take_keyword(&lexicon, Keyword::Break, tokens)?;
    let end = take_mark(&lexicon, Mark::Semicolon, word.rest)?;
    Ok(Read {
        value: Stmt::break_at(word.value.place),
        rest: end.rest,
    })
}

/// `continue`
#[tactic(auto, unfolding(crate::specs::Readers::continued, crate::specs::Readers::semicolon))]
pub fn continued<'a>(
    names: &Names,
    types: &Typedefs,
    below: u32,
    tokens: &'a [Token],
) -> Result<Read<'a, Stmt>, ReadFault>
    ensures { GivesAs plain_stmt (nested spec.continued names.now.texts below types.now tokens.now)
        result }
{
    let lexicon = reading(names, types);
    let word = take_keyword(&lexicon, Keyword::Continue, tokens)?;
    let end = take_mark(&lexicon, Mark::Semicolon, word.rest)?;
    Ok(Read {
        value: Stmt::continue_at(word.value.place),
        rest: end.rest,
    })
}

/// `return`
#[tactic(auto, unfolding(crate::specs::Readers::returned, crate::specs::Readers::semicolon))]
pub fn returned<'a>(
    alloc: Global,
    names: &Names,
    types: &Typedefs,
    below: u32,
    tokens: &'a [Token],
) -> Result<Read<'a, Stmt>, ReadFault>
    requires shallow { below < 200 }
    ensures { GivesAs plain_stmt (nested spec.returned names.now.texts below types.now tokens.now)
        result }
{
    let lexicon = reading(names, types);
    let word = take_keyword(&lexicon, Keyword::Return, tokens)?;
    let value = optional(alloc, names, types, below, Mark::Semicolon, word.rest)?;
    let end = take_mark(&lexicon, Mark::Semicolon, value.rest)?;
    Ok(Read {
        value: Stmt::return_value(value.value, word.value.place),
        rest: end.rest,
    })
}
