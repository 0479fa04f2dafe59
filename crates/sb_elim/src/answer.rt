ghost use Rattle.std.specs.Prelude.{◌≡◌, ◌↔◌, ◌+◌, [], true, length, reverse, IfOk};
ghost use Rattle.sb_term.specs.Passed.{passes_limit};
ghost use Rattle.sb_term.specs.Refutes.{value_under as term_value};
ghost use Rattle.sb_term.specs.Elimination.{start as started, eliminate_all, on_going};
ghost use Rattle.sb_term.specs.Pruning.{pruned as pruned_steps};
ghost use Rattle.sb_term.specs.Bounds.{values as all_values};
ghost use Rattle.sb_term.specs.AnswerOf.{is_from_zero as is_value_from_zero, is_up_to_minus_one as is_value_up_to_minus_one, facts_stand as all_facts_stand, is_refuted_by as is_query_refuted_by, refuted as refuted_answer, answer_from as answer_from_progress, answer_of};
ghost use Rattle.sb_elim.specs.Outcomes.{progress};

use crate::outcome::Outcome;
use crate::prune::pruned;
use crate::start::{new_state, run};
use crate::state::State;
use crate::symbols::symbols_of;
use crate::values::{in_order, value_under, values, zero};
use sb_term::{Answer, Assignment, Query, Rat, Row, Step, Steps, Sym};
use sqlite_items::Items;
use std::alloc::{AllocError, Global};

fn is_from_zero(value: Option<Rat>) -> bool
    ensures { result ≡ is_value_from_zero value }
{
    match value {
        None => false,
        Some(value) => zero().at_most(value),
    }
}

fn is_up_to_minus_one(value: Option<Rat>) -> bool
    ensures { result ≡ is_value_up_to_minus_one value }
{
    match value {
        None => false,
        Some(value) => value.at_most(Rat::new(-1, 1).unwrap()),
    }
}

fn facts_stand(known: &[(Sym, Rat)], facts: &[Row]) -> bool
    ensures { result ≡ all_facts_stand known.now facts.now }
{
    facts
        .iter()
        .all(|row| is_from_zero(value_under(known, &row.term)))
}

fn is_refuted_by(query: &Query, known: &[(Sym, Rat)]) -> bool
    ensures { result ≡ is_query_refuted_by query.now known.now }
{
    facts_stand(known, query.facts.as_slice())
        && is_up_to_minus_one(value_under(known, &query.goal.term))
}

/// The answer of values that are known.
fn answer_of_values(
    alloc: Global,
    query: &Query,
    known: &[(Sym, Rat)],
) -> Result<Answer, AllocError>
    ensures { IfOk result (λ x. x ≡ refuted_answer query.now (Some known.now)) }
{
    let symbols = symbols_of(alloc, query)?;
    let list = in_order(alloc, known, &symbols)?;
    if is_refuted_by(query, &list) {
        Ok(Answer::Refuted(Assignment {
            list: Items::from_vec(list),
        }))
    } else {
        Ok(Answer::LimitDigits)
    }
}

/// The answer where no symbol is left.
fn refuted(alloc: Global, query: &Query, state: State) -> Result<Answer, AllocError>
    ensures { IfOk result (λ x. x ≡ refuted_answer query.now (all_values state.asides [])) }
{
    match values(alloc, state.into_asides())? {
        None => Ok(Answer::LimitDigits),
        Some(known) => answer_of_values(alloc, query, &known),
    }
}

/// The answer where a row that holds nowhere is found. There is no memory for 2^64 rows.
fn proved(alloc: Global, query: &Query, steps: &[Step]) -> Result<Answer, AllocError>
    ensures { IfOk result
        (λ x. x ≡ Answer.Proved
        (record { list = pruned_steps (length query.now.facts + 1) (reverse steps.now) })) }
{
    let count = query.facts.len() as u64;
    let base = count.checked_add(1).ok_or(AllocError)?;
    base.checked_add(steps.len() as u64).ok_or(AllocError)?;
    Ok(Answer::Proved(Steps {
        list: Items::from_vec(pruned(alloc, base, steps)?),
    }))
}

/// The answer of a progress.
fn answer_from(
    alloc: Global,
    query: &Query,
    outcome: Outcome,
    state: State,
) -> Result<Answer, AllocError>
    ensures { IfOk result (λ x. x ≡ answer_from_progress query.now (progress outcome state)) }
{
    match outcome {
        Outcome::Going => refuted(alloc, query, state),
        Outcome::Proved => proved(alloc, query, state.steps()),
        Outcome::TooManyRows => Ok(Answer::LimitRows),
        Outcome::TooManyDigits => Ok(Answer::LimitDigits),
    }
}

/// The answer of the elimination.
pub fn answer(alloc: Global, query: &Query) -> Result<Answer, AllocError>
    ensures value { IfOk result (λ x. x ≡ answer_of query.now) }
    ensures limit { IfOk result (λ x. (x ≡ Answer.LimitDigits) ↔ (passes_limit query.now ≡ true)) }
{
    let symbols = symbols_of(alloc, query)?;
    let mut state = new_state(alloc, query)?;
    let outcome = run(alloc, &mut state, query, symbols)?;
    answer_from(alloc, query, outcome, state)
}
