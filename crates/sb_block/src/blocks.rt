//! Blocks, with the typedef names that their declarations bring into force (C99 6.8.2).
ghost use Rattle.std.specs.Prelude.{◌≡◌, ◌<◌};
ghost use Rattle.sb_lexicon.specs.Meaning.{GivesAs};
ghost use Rattle.sb_statement.specs.Meaning.{nested, plain_body};
ghost use Rattle.sb_statement.specs.Parts as part;
ghost use Rattle.sb_statement.specs.Readers as spec;
ghost use Rattle.sb_tree.specs.Plain.{plain_stmt};

use crate::statements::{item_within, statement};
use sb_base::{Names, Token};
use sb_lexicon::{Read, ReadFault, take_mark};
use sb_scope::Typedefs;
use sb_sign::Mark;
use sb_statement::{
    Body, declaration_item, is_declaration_next, is_item_next, is_label_next,
    is_named_declaration_next, named_declaration, reading,
};
use sb_tree::Stmt;
use std::alloc::Global;

/// As many declarations and statements as there are before a brace.
#[cycle(statement)]
fn more_items<'a>(
    alloc: Global,
    names: &Names,
    types: &Typedefs,
    cases: bool,
    below: u32,
    start: Read<'a, Body>,
) -> Result<Read<'a, Body>, ReadFault>
    requires shallow { below < 200 }
    ensures { GivesAs plain_body
        (nested part.more_items names.now.texts below types.now cases (plain_body start.entry.value)
        start.entry.rest.now) result }
{
    let most = start.rest.len();
    let mut found = start;
    for _turn in 0..most {
        if !is_item_next(names, types, found.rest) {
            return Ok(found);
        }
        found = item_within(alloc, names, cases, below, found)?;
    }
    Ok(found)
}

/// The declarations and statements before a brace.
#[cycle(statement)]
fn items<'a>(
    alloc: Global,
    names: &Names,
    types: &Typedefs,
    cases: bool,
    below: u32,
    tokens: &'a [Token],
) -> Result<Read<'a, Body>, ReadFault>
    requires shallow { below < 200 }
    ensures { GivesAs plain_body
        (nested part.items names.now.texts below types.now cases tokens.now) result }
{
    let start = Read {
        value: Body {
            list: Vec::new(alloc),
            types: types.clone()?,
        },
        rest: tokens,
    };
    more_items(alloc, names, types, cases, below, start)
}

/// Declarations and statements in braces.
#[cycle(statement)]
#[tactic(auto, unfolding(sb_statement::specs::Readers::block))]
pub(crate) fn block<'a>(
    alloc: Global,
    names: &Names,
    types: &Typedefs,
    cases: bool,
    below: u32,
    tokens: &'a [Token],
) -> Result<Read<'a, Stmt>, ReadFault>
    requires shallow { below < 200 }
    ensures { GivesAs plain_stmt
        (nested spec.block names.now.texts below types.now cases tokens.now) result }
{
    let lexicon = reading(names, types);
    let open = take_mark(&lexicon, Mark::OpenBrace, tokens)?;
    let body = items(alloc, names, types, cases, below, open.rest)?;
    let close = take_mark(&lexicon, Mark::CloseBrace, body.rest)?;
    Ok(Read {
        value: Stmt::block(body.value.list, open.value.place, close.value.place),
        rest: close.rest,
    })
}

/// One statement more.
#[cycle(statement)]
#[tactic(auto, unfolding(sb_statement::specs::Readers::statement_item), using(sb_statement::proofs::steps::Lists::more_stmts))]
fn statement_item<'a>(
    alloc: Global,
    names: &Names,
    cases: bool,
    below: u32,
    body: Read<'a, Body>,
) -> Result<Read<'a, Body>, ReadFault>
    requires shallow { below < 200 }
    ensures { GivesAs plain_body
        (nested spec.statement_item names.now.texts below cases (plain_body body.entry.value)
        body.entry.rest.now) result }
{
    let Read {
        value,
        rest: tokens,
    } = body;
    let Body { mut list, types } = value;
    let found = statement(alloc, names, &types, cases, below, tokens)?;
    list.push(found.value)?;
    Ok(Read {
        value: Body { list, types },
        rest: found.rest,
    })
}

/// A declaration that begins with a name, or a label.
#[cycle(statement)]
#[tactic(auto, unfolding(sb_statement::specs::Readers::named_item))]
fn named_item<'a>(
    alloc: Global,
    names: &Names,
    cases: bool,
    below: u32,
    body: Read<'a, Body>,
) -> Result<Read<'a, Body>, ReadFault>
    requires shallow { below < 200 }
    ensures { GivesAs plain_body
        (nested spec.named_item names.now.texts below cases (plain_body body.entry.value)
        body.entry.rest.now) result }
{
    if below == 0 {
        return Err(ReadFault::too_deep(body.rest));
    }
    if is_label_next(&reading(names, &body.value.types), body.rest) {
        return statement_item(alloc, names, cases, below, body);
    }
    named_declaration(alloc, names, below, body)
}

/// One declaration or statement more.
#[cycle(statement)]
#[tactic(auto, unfolding(sb_statement::specs::Readers::item))]
pub(crate) fn item<'a>(
    alloc: Global,
    names: &Names,
    cases: bool,
    below: u32,
    body: Read<'a, Body>,
) -> Result<Read<'a, Body>, ReadFault>
    requires shallow { below < 200 }
    ensures { GivesAs plain_body
        (nested spec.item names.now.texts below cases (plain_body body.entry.value)
        body.entry.rest.now) result }
{
    let lexicon = reading(names, &body.value.types);
    if is_named_declaration_next(&lexicon, body.rest) {
        return named_item(alloc, names, cases, below, body);
    }
    if is_declaration_next(&lexicon, body.rest) {
        return declaration_item(alloc, names, below, body);
    }
    statement_item(alloc, names, cases, below, body)
}
