//! Expressions in statements (C99 6.8.3).
ghost use Rattle.std.specs.Prelude.{◌≡◌, ◌<◌};
ghost use Rattle.sb_lexicon.specs.Lexicon as lex;
ghost use Rattle.sb_operand.specs.Meaning.{Reads};
ghost use Rattle.sb_lexicon.specs.Meaning.{Gives, GivesAs};
ghost use Rattle.sb_expr.specs.Expression.{Conditional};
ghost use Rattle.sb_expr.specs.Readers.{expr_reader};
ghost use Rattle.sb_specifier.specs.Specified as specified;
ghost use Rattle.sb_statement.specs.Meaning.{nested, plain_optional};
ghost use Rattle.sb_statement.specs.Readers as spec;
ghost use Rattle.sb_tree.specs.Plain.{plain_expr, plain_stmt};

use crate::lexemes::{front_place, is_no_operand_next, is_unlisted_next, reading, take_name};
use sb_base::{Names, Token};
use sb_expr::{Level, within};
use sb_lexicon::{Read, ReadFault, Reason, is_mark_next, take_mark};
use sb_operand::Found;
use sb_scope::Typedefs;
use sb_sign::Mark;
use sb_tree::{Expr, Stmt};
use std::alloc::Global;

/// An expression.
#[tactic(auto, unfolding(crate::specs::Readers::expression))]
fn expression<'a>(
    alloc: Global,
    names: &Names,
    types: &Typedefs,
    below: u32,
    tokens: &'a [Token],
) -> Result<Found<'a>, ReadFault>
    requires shallow { below < 200 }
    ensures { Reads (nested spec.expression names.now.texts below types.now tokens.now) result }
{
    within(
        alloc,
        &reading(names, types),
        Level::Sequence,
        below,
        tokens,
    )
}

/// The constant of a `case`.
pub fn constant<'a>(
    alloc: Global,
    names: &Names,
    types: &Typedefs,
    below: u32,
    tokens: &'a [Token],
) -> Result<Found<'a>, ReadFault>
    requires shallow { below < 200 }
    ensures { Reads (expr_reader (specified.reading names.now.texts types.now) below Conditional
        tokens.now) result }
{
    within(
        alloc,
        &reading(names, types),
        Level::Conditional,
        below,
        tokens,
    )
}

/// A semicolon.
#[tactic(auto, unfolding(crate::specs::Readers::semicolon))]
pub fn semicolon<'a>(
    names: &Names,
    types: &Typedefs,
    below: u32,
    tokens: &'a [Token],
) -> Result<Read<'a, Token>, ReadFault>
    ensures { Gives (nested spec.semicolon names.now.texts below types.now tokens.now) result }
{
    take_mark(&reading(names, types), Mark::Semicolon, tokens)
}

/// An expression in parentheses.
#[tactic(auto, unfolding(crate::specs::Readers::in_parentheses))]
pub fn in_parentheses<'a>(
    alloc: Global,
    names: &Names,
    types: &Typedefs,
    below: u32,
    tokens: &'a [Token],
) -> Result<Read<'a, Expr>, ReadFault>
    requires shallow { below < 200 }
    ensures { GivesAs plain_expr
        (nested spec.in_parentheses names.now.texts below types.now tokens.now) result }
{
    let lexicon = reading(names, types);
    let open = take_mark(&lexicon, Mark::OpenParenthesis, tokens)?;
    let value = expression(alloc, names, types, below, open.rest)?;
    let close = take_mark(&lexicon, Mark::CloseParenthesis, value.rest)?;
    Ok(Read {
        value: Box::into_inner(value.tree),
        rest: close.rest,
    })
}

/// An expression and its semicolon.
#[tactic(auto, unfolding(crate::specs::Readers::evaluated, crate::specs::Readers::semicolon))]
pub fn evaluated<'a>(
    alloc: Global,
    names: &Names,
    types: &Typedefs,
    below: u32,
    tokens: &'a [Token],
) -> Result<Read<'a, Stmt>, ReadFault>
    requires shallow { below < 200 }
    ensures { GivesAs plain_stmt (nested spec.evaluated names.now.texts below types.now tokens.now)
        result }
{
    let lexicon = reading(names, types);
    let value = expression(alloc, names, types, below, tokens)?;
    let place = front_place(tokens, value.rest);
    let end = take_mark(&lexicon, Mark::Semicolon, value.rest)?;
    Ok(Read {
        value: Stmt::evaluate(Some(Box::into_inner(value.tree)), place),
        rest: end.rest,
    })
}

/// A semicolon alone.
#[tactic(auto, unfolding(crate::specs::Readers::empty))]
pub fn empty<'a>(
    names: &Names,
    types: &Typedefs,
    below: u32,
    tokens: &'a [Token],
) -> Result<Read<'a, Stmt>, ReadFault>
    ensures { GivesAs plain_stmt (nested spec.empty names.now.texts below types.now tokens.now)
        result }
{
    let end = take_mark(&reading(names, types), Mark::Semicolon, tokens)?;
    Ok(Read {
        value: Stmt::evaluate(None, end.value.place),
        rest: end.rest,
    })
}

/// An expression, unless what ends it is next.
#[tactic(auto, unfolding(crate::specs::Readers::optional))]
pub fn optional<'a>(
    alloc: Global,
    names: &Names,
    types: &Typedefs,
    below: u32,
    end: Mark,
    tokens: &'a [Token],
) -> Result<Read<'a, Option<Expr>>, ReadFault>
    requires shallow { below < 200 }
    ensures { GivesAs plain_optional
        (nested spec.optional names.now.texts below types.now
        (lex.is_mark (specified.reading names.now.texts types.now) end) tokens.now) result }
{
    let lexicon = reading(names, types);
    if is_mark_next(&lexicon, end, tokens) {
        return Ok(Read {
            value: None,
            rest: tokens,
        });
    }
    let value = expression(alloc, names, types, below, tokens)?;
    Ok(Read {
        value: Some(Box::into_inner(value.tree)),
        rest: value.rest,
    })
}

/// What begins with a name and is no label.
#[tactic(auto, unfolding(crate::specs::Readers::unlabelled, crate::specs::Readers::only_label))]
pub fn unlabelled<'a>(
    alloc: Global,
    names: &Names,
    types: &Typedefs,
    below: u32,
    tokens: &'a [Token],
) -> Result<Read<'a, Stmt>, ReadFault>
    requires shallow { below < 200 }
    ensures { GivesAs plain_stmt (nested spec.unlabelled names.now.texts below types.now tokens.now)
        result }
{
    let lexicon = reading(names, types);
    if is_unlisted_next(&lexicon, tokens) {
        let name = take_name(&lexicon, tokens)?;
        return Err(ReadFault::at(Reason::UnknownAnnotationBefore, name.rest));
    }
    if is_no_operand_next(&lexicon, tokens) {
        let name = take_name(&lexicon, tokens)?;
        return Err(ReadFault::unexpected(name.rest));
    }
    evaluated(alloc, names, types, below, tokens)
}
