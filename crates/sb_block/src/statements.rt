//! Statements (C99 6.8).
ghost use Rattle.std.specs.Prelude.{◌≡◌, ◌<◌, ◌≤◌};
ghost use Rattle.sb_lexicon.specs.Meaning.{GivesAs};
ghost use Rattle.sb_statement.specs.Meaning.{nested, plain_body};
ghost use Rattle.sb_statement.specs.Parts as part;
ghost use Rattle.sb_statement.specs.Readers as spec;
ghost use Rattle.sb_tree.specs.Plain.{plain_stmt};

use crate::blocks::{block, item};
use crate::iteration::{done_first, iterated, repeated};
use crate::labels::{by_name, cased};
use crate::selection::{selected, switched};
use sb_base::{Names, Token};
use sb_lexicon::{Read, ReadFault, is_keyword_next, is_mark_next};
use sb_scope::Typedefs;
use sb_sign::{Keyword, Mark};
use sb_statement::{
    Body, broken, continued, empty, gone, is_name_next, no_block, no_item, no_statement, reading,
    returned,
};
use sb_tree::Stmt;
use std::alloc::Global;

/// A jump, or what `cased` reads.
#[cycle(statement)]
fn jumping<'a>(
    alloc: Global,
    names: &Names,
    types: &Typedefs,
    cases: bool,
    below: u32,
    tokens: &'a [Token],
) -> Result<Read<'a, Stmt>, ReadFault>
    requires shallow { below < 200 }
    ensures { GivesAs plain_stmt
        (nested part.jumping names.now.texts below types.now cases tokens.now) result }
{
    let lexicon = reading(names, types);
    if is_keyword_next(&lexicon, Keyword::Goto, tokens) {
        return gone(names, types, below, tokens);
    }
    if is_keyword_next(&lexicon, Keyword::Break, tokens) {
        return broken(names, types, below, tokens);
    }
    if is_keyword_next(&lexicon, Keyword::Continue, tokens) {
        return continued(names, types, below, tokens);
    }
    if is_keyword_next(&lexicon, Keyword::Return, tokens) {
        return returned(alloc, names, types, below, tokens);
    }
    cased(alloc, names, types, cases, below, tokens)
}

/// A loop, `switch`, or what `jumping` reads.
#[cycle(statement)]
fn iterating<'a>(
    alloc: Global,
    names: &Names,
    types: &Typedefs,
    cases: bool,
    below: u32,
    tokens: &'a [Token],
) -> Result<Read<'a, Stmt>, ReadFault>
    requires shallow { below < 200 }
    ensures { GivesAs plain_stmt
        (nested part.iterating names.now.texts below types.now cases tokens.now) result }
{
    let lexicon = reading(names, types);
    let is_while = is_keyword_next(&lexicon, Keyword::While, tokens);
    let is_do = is_keyword_next(&lexicon, Keyword::Do, tokens);
    let is_for = is_keyword_next(&lexicon, Keyword::For, tokens);
    let is_switch = is_keyword_next(&lexicon, Keyword::Switch, tokens);
    if !is_while && !is_do && !is_for && !is_switch {
        return jumping(alloc, names, types, cases, below, tokens);
    }
    if below == 0 {
        return Err(ReadFault::too_deep(tokens));
    }
    if is_while {
        return repeated(alloc, names, types, below, tokens);
    }
    if is_do {
        return done_first(alloc, names, types, below, tokens);
    }
    if is_for {
        return iterated(alloc, names, types, below, tokens);
    }
    switched(alloc, names, types, below, tokens)
}

/// A statement that begins with no name.
#[cycle(statement)]
#[tactic(auto, unfolding(sb_statement::specs::Readers::by_keyword))]
fn by_keyword<'a>(
    alloc: Global,
    names: &Names,
    types: &Typedefs,
    cases: bool,
    below: u32,
    tokens: &'a [Token],
) -> Result<Read<'a, Stmt>, ReadFault>
    requires shallow { below < 200 }
    ensures { GivesAs plain_stmt
        (nested part.unnamed names.now.texts below types.now cases tokens.now) result }
{
    let lexicon = reading(names, types);
    if is_mark_next(&lexicon, Mark::OpenBrace, tokens) {
        return block(alloc, names, types, false, below, tokens);
    }
    if is_mark_next(&lexicon, Mark::Semicolon, tokens) {
        return empty(names, types, below, tokens);
    }
    if !is_keyword_next(&lexicon, Keyword::If, tokens) {
        return iterating(alloc, names, types, cases, below, tokens);
    }
    if below == 0 {
        return Err(ReadFault::too_deep(tokens));
    }
    selected(alloc, names, types, below, tokens)
}

/// A statement.
#[cycle(statement)]
#[tactic(auto, unfolding(sb_statement::specs::Readers::statement))]
pub(crate) fn statement<'a>(
    alloc: Global,
    names: &Names,
    types: &Typedefs,
    cases: bool,
    below: u32,
    tokens: &'a [Token],
) -> Result<Read<'a, Stmt>, ReadFault>
    requires shallow { below < 200 }
    ensures { GivesAs plain_stmt
        (nested spec.statement names.now.texts below cases types.now tokens.now) result }
{
    if is_name_next(&reading(names, types), tokens) {
        return by_name(alloc, names, types, cases, below, tokens);
    }
    by_keyword(alloc, names, types, cases, below, tokens)
}

// ---- by the depth that is left

/// A statement at most `left` deep.
#[cycle(statement)]
pub(crate) fn statement_within<'a>(
    alloc: Global,
    names: &Names,
    types: &Typedefs,
    cases: bool,
    left: u32,
    tokens: &'a [Token],
) -> Result<Read<'a, Stmt>, ReadFault>
    requires shallow { left ≤ 200 }
    ensures { GivesAs plain_stmt
        ((spec.statements names.now.texts left).statement cases types.now tokens.now) result }
{
    if left == 0 {
        return Err(no_statement(names, types, cases, tokens));
    }
    statement(alloc, names, types, cases, left - 1, tokens)
}

/// A block at most `left` deep.
#[cycle(statement)]
pub fn block_within<'a>(
    alloc: Global,
    names: &Names,
    types: &Typedefs,
    cases: bool,
    left: u32,
    tokens: &'a [Token],
) -> Result<Read<'a, Stmt>, ReadFault>
    requires shallow { left ≤ 200 }
    ensures { GivesAs plain_stmt
        ((spec.statements names.now.texts left).block cases types.now tokens.now) result }
{
    if left == 0 {
        return Err(no_block(names, types, tokens));
    }
    block(alloc, names, types, cases, left - 1, tokens)
}

/// One declaration or statement more, at most `left` deep.
#[cycle(statement)]
pub(crate) fn item_within<'a>(
    alloc: Global,
    names: &Names,
    cases: bool,
    left: u32,
    body: Read<'a, Body>,
) -> Result<Read<'a, Body>, ReadFault>
    requires shallow { left ≤ 200 }
    ensures { GivesAs plain_body
        ((spec.statements names.now.texts left).item cases (plain_body body.entry.value)
        body.entry.rest.now) result }
{
    if left == 0 {
        let lexicon = reading(names, &body.value.types);
        return Err(no_item(&lexicon, cases, body.rest));
    }
    item(alloc, names, cases, left - 1, body)
}
