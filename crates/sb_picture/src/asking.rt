//! How a question is put: the facts that are connected with the goal, and then the goal.
ghost use Rattle.std.specs.Prelude.{◌≡◌, None, length, nat_eq, IfOk, IfErr, OnOk};
ghost use Rattle.sb_term.specs.declared.fault.DecideFault.TheVariants.{Memory};
ghost use Rattle.std.specs.List.{filter, list_any};
ghost use Rattle.sb_term.specs.Asks.{run, EndsAs};
ghost use Rattle.sb_picture.specs.Pictures.{with_fact};
ghost use Rattle.sb_picture.specs.Asking.{ask_term, with_met, with_all_met, names_one, touches, spread, closed, connected, query_of, decided, ask, is_proved, negation, given, assume, where_held};
ghost use Rattle.sb_picture.specs.Ends.{EndsWith, EndsProved};

use crate::copied::Copied;
use crate::facts::add_fact;
use crate::picture::Picture;
use crate::terms::{has_symbol, negation, never};
use sb_term::{Answer, Assignment, Decide, DecideFault, Entry, Query, Row, Steps, Term};
use sqlite_items::Items;
use std::alloc::{AllocError, Global};

/// A question with its answer.
#[derive(Drop)]
pub struct Asked {
    pub query: Query,
    pub answer: Answer,
}

impl Asked {
    pub fn is_proved(&self) -> bool
        ensures { result ≡ is_proved self.now.answer }
    {
        match &self.answer {
            Answer::Proved(_) => true,
            Answer::Refuted(_) | Answer::LimitRows | Answer::LimitDigits => false,
        }
    }
}

fn holds(symbols: &[u64], symbol: u64) -> bool
    ensures { result ≡ list_any (nat_eq symbol) symbols.now }
{
    symbols.iter().any(|known| symbol == *known)
}

/// One symbol more, unless it stands.
fn add_symbol(symbols: &mut Items<u64>, symbol: u64) -> Result<(), AllocError>
    ensures { OnOk result (symbols.new ≡ with_met symbols.old symbol) }
{
    if !holds(symbols.as_slice(), symbol) {
        symbols.push(symbol)?;
    }
    Ok(())
}

fn add_symbols(symbols: &mut Items<u64>, entries: &[Entry]) -> Result<(), AllocError>
    ensures { OnOk result (symbols.new ≡ with_all_met symbols.old entries.now) }
{
    for entry in entries {
        add_symbol(symbols, entry.symbol)?;
    }
    Ok(())
}

fn names_one(symbols: &[u64], entry: &Entry) -> bool
    ensures { result ≡ names_one symbols.now entry.now }
{
    holds(symbols, entry.symbol)
}

/// Whether a fact shares a symbol with a list.
fn touches(symbols: &[u64], fact: &Row) -> bool
    ensures { result ≡ touches symbols.now fact.now }
{
    fact.term
        .entries()
        .iter()
        .any(|entry| names_one(symbols, entry))
}

/// One pass over the facts: each that shares a symbol with the list brings its own.
fn spread(symbols: &mut Items<u64>, facts: &[Row]) -> Result<(), AllocError>
    ensures { OnOk result (symbols.new ≡ spread symbols.old facts.now) }
{
    for fact in facts {
        if touches(symbols.as_slice(), fact) {
            add_symbols(symbols, fact.term.entries())?;
        }
    }
    Ok(())
}

/// The symbols that facts join with those of a list.
fn close(symbols: &mut Items<u64>, facts: &[Row]) -> Result<(), AllocError>
    ensures { OnOk result (symbols.new ≡ closed (length facts.now) facts.now symbols.old) }
{
    for _turn in 0..facts.len() {
        let before = symbols.len();
        spread(symbols, facts)?;
        if symbols.len() == before {
            return Ok(());
        }
    }
    Ok(())
}

/// The facts that share a symbol with the goal or with a fact that does, in their order.
fn connected_facts(alloc: Global, facts: &[Row], goal: &Term) -> Result<Items<Row>, AllocError>
    ensures { IfOk result (λ rows. rows ≡ connected facts.now goal.now) }
{
    let mut symbols = Items::new(alloc);
    add_symbols(&mut symbols, goal.entries())?;
    close(&mut symbols, facts)?;
    touching_facts(alloc, symbols.as_slice(), facts)
}

fn touching_facts(alloc: Global, symbols: &[u64], facts: &[Row]) -> Result<Items<Row>, AllocError>
    ensures { IfOk result (λ rows. rows ≡ filter (touches symbols.now) facts.now) }
{
    let mut rows = Items::new(alloc);
    for fact in facts {
        if touches(symbols, fact) {
            let copy = fact.copy(alloc)?;
            rows.push(copy)?;
        }
    }
    Ok(rows)
}

/// What is decided of a goal without symbols: by its constant.
fn constant_answer(alloc: Global, goal: &Term) -> Answer
    ensures { result ≡ decided goal.now }
{
    if 0 <= goal.rest() {
        Answer::Proved(Steps {
            list: Items::new(alloc),
        })
    } else {
        Answer::Refuted(Assignment {
            list: Items::new(alloc),
        })
    }
}

fn query_of(alloc: Global, facts: &[Row], goal: Term) -> Result<Query, AllocError>
    ensures { IfOk result (λ query. query ≡ query_of facts.now goal) }
{
    let facts = connected_facts(alloc, facts, &goal)?;
    Ok(Query {
        facts,
        goal: Row { term: goal },
    })
}

fn ask_term<V: Decide>(
    alloc: Global,
    facts: &[Row],
    goal: Term,
    judge: &mut V,
) -> Result<Asked, DecideFault>
    requires { V.stop judge.old ≡ None }
    ensures rule { EndsWith result (λ x. (x.query, x.answer)) judge.new
        (run V.stop V.gives V.after (ask_term facts.now goal) judge.old) }
    ensures stop { OnOk result (V.stop judge.new ≡ None) }
{
    if has_symbol(&goal) {
        let query = query_of(alloc, facts, goal)?;
        let answer = judge.decide(alloc, &query)?;
        Ok(Asked { query, answer })
    } else {
        let answer = constant_answer(alloc, &goal);
        let query = Query {
            facts: Items::new(alloc),
            goal: Row { term: goal },
        };
        Ok(Asked { query, answer })
    }
}

/// Asks whether a goal follows from facts. A goal past the limits is not asked.
pub fn ask<V: Decide>(
    alloc: Global,
    facts: &[Row],
    goal: Option<Term>,
    judge: &mut V,
) -> Result<Asked, DecideFault>
    requires { V.stop judge.old ≡ None }
    ensures rule { EndsWith result (λ x. (x.query, x.answer)) judge.new
        (run V.stop V.gives V.after (ask facts.now goal) judge.old) }
    ensures stop { OnOk result (V.stop judge.new ≡ None) }
{
    match goal {
        Some(goal) => ask_term(alloc, facts, goal, judge),
        None => {
            let goal = Row { term: never(alloc) };
            let query = Query {
                facts: Items::new(alloc),
                goal,
            };
            Ok(Asked {
                query,
                answer: Answer::LimitDigits,
            })
        }
    }
}

/// The negation of a condition, or none where the condition or its negation passes the limits.
fn negated_condition(alloc: Global, condition: &Option<Term>) -> Result<Option<Term>, AllocError>
    ensures { IfOk result (λ t. t ≡ negation condition.now) }
{
    match condition {
        Some(term) => negation(alloc, term),
        None => Ok(None),
    }
}

fn is_proof(asked: Asked) -> bool
    ensures { result ≡ is_proved asked.answer }
{
    asked.is_proved()
}

/// Whether facts prove the negation of a condition.
fn excludes<V: Decide>(
    alloc: Global,
    facts: &[Row],
    condition: &Option<Term>,
    judge: &mut V,
) -> Result<bool, DecideFault>
    requires { V.stop judge.old ≡ None }
    ensures rule { EndsProved result judge.new
        (run V.stop V.gives V.after (ask facts.now (negation condition.now)) judge.old) }
    ensures stop { OnOk result (V.stop judge.new ≡ None) }
{
    let negated = negated_condition(alloc, condition)?;
    let asked = ask(alloc, facts, negated, judge)?;
    Ok(is_proof(asked))
}

fn add_condition(
    alloc: Global,
    condition: &Option<Term>,
    facts: &mut Items<Row>,
) -> Result<(), AllocError>
    ensures { OnOk result (facts.new ≡ with_fact facts.old condition.now) }
{
    let fact = condition.copied(alloc)?;
    add_fact(facts, fact)?;
    Ok(())
}

/// Assumes conditions in a picture, and tells whether it proves the negation of none.
#[tactic(auto, using(sb_term::specs::AskLaws::runs))]
fn assume_each<V: Decide>(
    alloc: Global,
    conditions: &[Option<Term>],
    picture: &mut Picture,
    judge: &mut V,
) -> Result<bool, DecideFault>
    requires { V.stop judge.old ≡ None }
    ensures rule { EndsWith result (where_held picture.new) judge.new
        (run V.stop V.gives V.after (assume conditions.now picture.old) judge.old) }
    ensures stop { OnOk result (V.stop judge.new ≡ None) }
{
    for condition in conditions {
        let excluded = excludes(alloc, picture.facts.as_slice(), condition, judge)?;
        if excluded {
            return Ok(false);
        }
        add_condition(alloc, condition, &mut picture.facts)?;
    }
    Ok(true)
}

fn where_held(alloc: Global, picture: Picture, holds: bool) -> Result<Items<Picture>, DecideFault>
    ensures pictures { IfOk result (λ pictures. pictures ≡ where_held picture holds) }
    ensures err { IfErr result (λ fault. fault ≡ Memory) }
{
    let mut pictures = Items::new(alloc);
    if holds {
        pictures.push(picture)?;
    }
    Ok(pictures)
}

/// The pictures in which conditions hold: one, or none where the negation of a condition is proved.
pub fn assume<V: Decide>(
    alloc: Global,
    conditions: &[Option<Term>],
    from: Picture,
    judge: &mut V,
) -> Result<Items<Picture>, DecideFault>
    requires { V.stop judge.old ≡ None }
    ensures rule { EndsAs result judge.new
        (run V.stop V.gives V.after (assume conditions.now from) judge.old) }
    ensures stop { OnOk result (V.stop judge.new ≡ None) }
{
    let mut picture = from;
    let holds = assume_each(alloc, conditions, &mut picture, judge)?;
    where_held(alloc, picture, holds)
}
