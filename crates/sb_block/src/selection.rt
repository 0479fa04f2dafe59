//! Selection (C99 6.8.4).
ghost use Rattle.std.specs.Prelude.{◌≡◌, ◌<◌, false};
ghost use Rattle.sb_lexicon.specs.Meaning.{GivesAs};
ghost use Rattle.sb_statement.specs.Meaning.{nested, plain_other};
ghost use Rattle.sb_statement.specs.Readers as spec;
ghost use Rattle.sb_tree.specs.Plain.{plain_stmt};

use crate::statements::{block_within, statement_within};
use sb_base::{Names, Token};
use sb_lexicon::{Read, ReadFault, is_keyword_next, take_keyword};
use sb_scope::Typedefs;
use sb_sign::Keyword;
use sb_statement::{in_parentheses, reading};
use sb_tree::Stmt;
use std::alloc::Global;

/// `else` and a statement, where they are next.
#[cycle(statement)]
#[tactic(auto, unfolding(sb_statement::specs::Readers::other))]
fn other<'a>(
    alloc: Global,
    names: &Names,
    types: &Typedefs,
    below: u32,
    tokens: &'a [Token],
) -> Result<Read<'a, Option<Box<Stmt>>>, ReadFault>
    requires shallow { below < 200 }
    ensures { GivesAs plain_other (nested spec.other names.now.texts below types.now tokens.now)
        result }
{
    let lexicon = reading(names, types);
    if !is_keyword_next(&lexicon, Keyword::Else, tokens) {
        return Ok(Read {
            value: None,
            rest: tokens,
        });
    }
    let word = take_keyword(&lexicon, Keyword::Else, tokens)?;
    let statement = statement_within(alloc, names, types, false, below, word.rest)?;
    Ok(Read {
        value: Some(Box::new(alloc, statement.value)?),
        rest: statement.rest,
    })
}

/// `if`
#[cycle(statement)]
#[tactic(auto, unfolding(sb_statement::specs::Readers::selected))]
pub(crate) fn selected<'a>(
    alloc: Global,
    names: &Names,
    types: &Typedefs,
    below: u32,
    tokens: &'a [Token],
) -> Result<Read<'a, Stmt>, ReadFault>
    requires shallow { below < 200 }
    ensures { GivesAs plain_stmt (nested spec.selected names.now.texts below types.now tokens.now)
        result }
{
    let lexicon = reading(names, types);
    let word = take_keyword(&lexicon, Keyword::If, tokens)?;
    let test = in_parentheses(alloc, names, types, below, word.rest)?;
    let yes = statement_within(alloc, names, types, false, below, test.rest)?;
    let statement = Box::new(alloc, yes.value)?;
    let no = other(alloc, names, types, below, yes.rest)?;
    Ok(Read {
        value: Stmt::if_else(test.value, statement, no.value, word.value.place),
        rest: no.rest,
    })
}

/// `switch`, whose body is a block.
#[cycle(statement)]
#[tactic(auto, unfolding(sb_statement::specs::Readers::switched))]
pub(crate) fn switched<'a>(
    alloc: Global,
    names: &Names,
    types: &Typedefs,
    below: u32,
    tokens: &'a [Token],
) -> Result<Read<'a, Stmt>, ReadFault>
    requires shallow { below < 200 }
    ensures { GivesAs plain_stmt (nested spec.switched names.now.texts below types.now tokens.now)
        result }
{
    let lexicon = reading(names, types);
    let word = take_keyword(&lexicon, Keyword::Switch, tokens)?;
    let on = in_parentheses(alloc, names, types, below, word.rest)?;
    let body = block_within(alloc, names, types, true, below, on.rest)?;
    let block = Box::new(alloc, body.value)?;
    Ok(Read {
        value: Stmt::switch(on.value, block, word.value.place),
        rest: body.rest,
    })
}
