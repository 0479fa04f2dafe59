//! Declarations among the statements of a block (C99 6.8.2).
ghost use Rattle.std.specs.Prelude.{◌≡◌, ◌<◌};
ghost use Rattle.sb_lexicon.specs.Meaning.{meant, GivesAs, IsFault};
ghost use Rattle.sb_statement.specs.Meaning.{nested, plain_body, plain_declared};
ghost use Rattle.sb_statement.specs.Parts as part;
ghost use Rattle.sb_statement.specs.Readers as spec;

use crate::lexemes::{
    front_place, is_type_going_on, is_unlisted_next, lacks_room, reading, take_name,
};
use crate::values::{Body, DeclaredStatement};
use sb_base::{Names, Token};
use sb_declare::declaration;
use sb_lexicon::{Feature, Lexicon, Read, ReadFault, Reason, is_keyword_next, is_mark_next};
use sb_sal::{Bearer, is_bare, is_listed, is_misplaced_next};
use sb_scope::Typedefs;
use sb_sign::{Keyword, Mark};
use sb_specifier::{Seat, barred};
use sb_tree::Stmt;
use std::alloc::Global;

/// A declaration as a statement.
#[tactic(auto, unfolding(crate::specs::Readers::declared))]
pub(crate) fn declared<'a>(
    alloc: Global,
    names: &Names,
    types: &Typedefs,
    below: u32,
    tokens: &'a [Token],
) -> Result<Read<'a, DeclaredStatement>, ReadFault>
    requires shallow { below < 200 }
    ensures { GivesAs plain_declared
        (nested spec.declared names.now.texts below types.now tokens.now) result }
{
    let found = declaration(alloc, names, types, below, tokens)?;
    let place = front_place(tokens, found.rest);
    Ok(Read {
        value: DeclaredStatement {
            statement: Stmt::declare(found.value.list, place),
            types: found.value.types,
        },
        rest: found.rest,
    })
}

/// One declaration more.
#[tactic(auto, unfolding(crate::specs::Readers::declaration_item), using(crate::proofs::steps::Lists::more_stmts))]
pub fn declaration_item<'a>(
    alloc: Global,
    names: &Names,
    below: u32,
    body: Read<'a, Body>,
) -> Result<Read<'a, Body>, ReadFault>
    requires shallow { below < 200 }
    ensures { GivesAs plain_body
        (nested spec.declaration_item names.now.texts below (plain_body body.entry.value)
        body.entry.rest.now) result }
{
    let Read {
        value,
        rest: tokens,
    } = body;
    let Body { mut list, types } = value;
    let found = declared(alloc, names, &types, below, tokens)?;
    let DeclaredStatement { statement, types } = found.value;
    list.push(statement)?;
    Ok(Read {
        value: Body { list, types },
        rest: found.rest,
    })
}

/// Why nothing goes on behind an annotation with arguments for which there is no room.
fn without_arguments(lexicon: &Lexicon, tokens: &[Token]) -> ReadFault
    ensures { IsFault (part.without_arguments {A = spec.Body} (meant lexicon.now) tokens.now)
        result }
{
    if is_mark_next(lexicon, Mark::OpenParenthesis, tokens) {
        return ReadFault::too_deep(tokens);
    }
    if tokens.is_empty() {
        return ReadFault::at_end();
    }
    ReadFault::at(Reason::Arguments, tokens)
}

/// Why nothing goes on behind an annotation without arguments for which there is no room.
fn behind_bare(lexicon: &Lexicon, tokens: &[Token]) -> ReadFault
    ensures { IsFault (part.behind_bare {A = spec.Body} (meant lexicon.now) tokens.now) result }
{
    if is_mark_next(lexicon, Mark::OpenParenthesis, tokens) {
        return ReadFault::at(Reason::Arguments, tokens);
    }
    barred(lexicon, Seat::Scope, tokens)
}

/// Why nothing goes on behind the first token of a declaration for which there is no room.
fn crowded(lexicon: &Lexicon, first: &Token, tokens: &[Token]) -> ReadFault
    ensures { IsFault (spec.crowded {A = spec.Body} (meant lexicon.now) first.now tokens.now)
        result }
{
    if is_bare(lexicon, first) {
        return behind_bare(lexicon, tokens);
    }
    if is_listed(lexicon, first) {
        return without_arguments(lexicon, tokens);
    }
    if is_keyword_next(lexicon, Keyword::Volatile, tokens) {
        return ReadFault::lacks(Feature::Volatile, tokens);
    }
    if is_type_going_on(lexicon, tokens) {
        return ReadFault::too_deep(tokens);
    }
    ReadFault::unexpected(tokens)
}

/// A declaration that begins with a name.
#[tactic(auto, unfolding(crate::specs::Readers::named_declaration, crate::specs::Readers::only_label))]
pub fn named_declaration<'a>(
    alloc: Global,
    names: &Names,
    below: u32,
    body: Read<'a, Body>,
) -> Result<Read<'a, Body>, ReadFault>
    requires shallow { below < 200 }
    ensures { GivesAs plain_body
        (nested spec.named_declaration names.now.texts below (plain_body body.entry.value)
        body.entry.rest.now) result }
{
    let lexicon = reading(names, &body.value.types);
    if is_unlisted_next(&lexicon, body.rest) {
        let name = take_name(&lexicon, body.rest)?;
        return Err(ReadFault::at(Reason::UnknownAnnotationBefore, name.rest));
    }
    if is_misplaced_next(&lexicon, Bearer::Function, body.rest) {
        let name = take_name(&lexicon, body.rest)?;
        return Err(ReadFault::at(Reason::MisplacedBefore(1), name.rest));
    }
    if lacks_room(&lexicon, below, body.rest) {
        let name = take_name(&lexicon, body.rest)?;
        return Err(crowded(&lexicon, &name.value, name.rest));
    }
    declaration_item(alloc, names, below, body)
}
