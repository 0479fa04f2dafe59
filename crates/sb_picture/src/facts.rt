//! How facts are added, and the numbers that a picture knows.
ghost use Rattle.std.specs.Prelude.{◌≡◌, pos, Some, IfOk, OnOk};
ghost use Rattle.std.specs.List.{list_any};
ghost use Rattle.sb_term.specs.Linear.{formed};
ghost use Rattle.sb_picture.specs.Pictures.{minus, is_fact, with_term, with_fact, number_at};

use crate::picture::Value;
use crate::terms::{difference, has_symbol, number, same_term};
use sb_function::Simple;
use sb_term::{Row, Term};
use sqlite_items::{Items, at};
use std::alloc::{AllocError, Global};

fn holds_fact(facts: &[Row], term: &Term) -> bool
    ensures { result ≡ list_any (is_fact term.now) facts.now }
{
    facts.iter().any(|fact| same_term(&fact.term, term))
}

fn add_term(facts: &mut Items<Row>, term: Term) -> Result<(), AllocError>
    ensures { OnOk result (facts.new ≡ with_term facts.old term) }
{
    if has_symbol(&term) && !holds_fact(facts.as_slice(), &term) {
        facts.push(Row { term })?;
    }
    Ok(())
}

/// One fact more, unless it stands already, has no symbols, or passed the limits.
pub fn add_fact(facts: &mut Items<Row>, fact: Option<Term>) -> Result<(), AllocError>
    ensures { OnOk result (facts.new ≡ with_fact facts.old fact) }
{
    if let Some(term) = fact {
        add_term(facts, term)?;
    }
    Ok(())
}

/// The fact that a term is at least 0.
pub fn add_at_least_zero(
    alloc: Global,
    term: &Term,
    facts: &mut Items<Row>,
) -> Result<(), AllocError>
    ensures { OnOk result (facts.new ≡ with_fact facts.old (Some term.now)) }
{
    let copy = term.copy(alloc)?;
    add_term(facts, copy)?;
    Ok(())
}

/// The fact that a term is at least another.
pub fn add_at_least(
    alloc: Global,
    term: &Term,
    least: &Term,
    facts: &mut Items<Row>,
) -> Result<(), AllocError>
    ensures { OnOk result
        (facts.new ≡ with_fact facts.old (formed (minus term.now least.now (pos 0)))) }
{
    let difference = difference(alloc, term, least, 0)?;
    add_fact(facts, difference)?;
    Ok(())
}

/// The number of a side of a comparison, an index or a stored value, or none where it is not known.
pub fn number_at(alloc: Global, values: &[Value], side: Simple) -> Result<Option<Term>, AllocError>
    ensures { IfOk result (λ t. t ≡ number_at values.now side) }
{
    match side {
        Simple::Number(value) => Ok(Some(number(alloc, value))),
        Simple::Param(position) => match at(values, position as usize) {
            Some(Value::Number(term)) => {
                let copy = term.copy(alloc)?;
                Ok(Some(copy))
            }
            Some(
                Value::Pointer {
                    region: _,
                    offset: _,
                },
            )
            | Some(Value::Unknown)
            | None => Ok(None),
        },
    }
}
