ghost use Rattle.std.specs.Prelude.{◌≡◌, ◌+◌, length, IfOk};
ghost use Rattle.sb_term.specs.Linear.{formed};
ghost use Rattle.sb_term.specs.Rows.{negated as negated_term};
ghost use Rattle.sb_term.specs.Elimination.{place_facts as facts_placed, start as started, empty, on_going, eliminate_all};
ghost use Rattle.sb_elim.specs.Outcomes.{progress};

use crate::outcome::Outcome;
use crate::state::State;
use sb_term::{Numbered, Query, Row, Term, TermFault};
use std::alloc::{AllocError, Global};

/// The negation of a row, or none where it passes a limit.
fn negated(alloc: Global, goal: &Row) -> Result<Option<Term>, AllocError>
    ensures { IfOk result (λ o. o ≡ formed (negated_term goal.now.term)) }
{
    let zero = Term::constant(alloc, 0).unwrap();
    match zero.minus(alloc, &goal.term, -1) {
        Ok(term) => Ok(Some(term)),
        Err(TermFault::TooWide) => Ok(None),
        Err(TermFault::Memory) => Err(AllocError),
    }
}

/// Places facts in order, numbered from 0.
fn place_facts(state: &mut State, alloc: Global, facts: &[Row]) -> Result<Outcome, AllocError>
    ensures { IfOk result (λ o. progress o state.new ≡ facts_placed 0 facts.now state.old) }
{
    for (k, row) in facts.iter().enumerate() {
        let number = k as u64;
        let term = row.term.copy(alloc)?;
        match state.place(Numbered { number, term })? {
            Outcome::Going => {}
            other => return Ok(other),
        }
    }
    Ok(Outcome::Going)
}

/// The state where the rows of a query are to be placed.
pub fn new_state(alloc: Global, query: &Query) -> Result<State, AllocError>
    ensures { IfOk result (λ st. st ≡ empty (length query.now.facts + 1)) }
{
    let count = query.facts.len() as u64;
    let base = count.checked_add(1).ok_or(AllocError)?;
    Ok(State::new(alloc, base))
}

/// Places the facts and then the negated goal.
fn start(alloc: Global, state: &mut State, query: &Query) -> Result<Outcome, AllocError>
    requires { state.old ≡ empty (length query.now.facts + 1) }
    ensures { IfOk result (λ o. progress o state.new ≡ started query.now) }
{
    match place_facts(state, alloc, query.facts.as_slice())? {
        Outcome::Going => {
            let term = negated(alloc, &query.goal)?;
            state.place_formed(term, query.facts.len() as u64)
        }
        other => Ok(other),
    }
}

/// Places the rows of a query and eliminates its symbols.
pub fn run(
    alloc: Global,
    state: &mut State,
    query: &Query,
    symbols: Vec<u64>,
) -> Result<Outcome, AllocError>
    requires { state.old ≡ empty (length query.now.facts + 1) }
    ensures { IfOk result
        (λ o. progress o state.new
        ≡ on_going (started query.now)
        (λ st. eliminate_all (length symbols.items) symbols.items st)) }
{
    match start(alloc, state, query)? {
        Outcome::Going => state.eliminate_all(alloc, symbols),
        other => Ok(other),
    }
}
