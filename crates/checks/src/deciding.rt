//! Cases of rationals, terms and queries.

use sb_elim::Plain;
use sb_show::Report;
use sb_term::{Answer, Decide, Query, Rat, Row, Step, Sym, Term, TermFault};
use sqlite_items::Items;
use std::alloc::Global;

fn number(text: &str) -> i128 {
    text.parse::<i128>().unwrap_or(0)
}

/// `NUMERATOR/DENOMINATOR`, or whole.
fn rational(text: &str) -> Option<Rat> {
    let (top, bottom) = text.split_once('/').unwrap_or((text, "1"));
    Rat::new(number(top), number(bottom))
}

fn put_rat(rat: Rat, report: &mut Report) {
    report.number(rat.numerator());
    if rat.denominator() != 1 {
        report.word("/");
        report.number(i128::from(rat.denominator()));
    }
}

/// `rational`: a rational, or two with `+` or `*` between them.
pub(crate) fn put_rational(text: &str, report: &mut Report) {
    let found = if let Some((left, right)) = text.split_once(" + ") {
        match (rational(left), rational(right)) {
            (Some(left), Some(right)) => left.add(right),
            _ => None,
        }
    } else if let Some((left, right)) = text.split_once(" * ") {
        match (rational(left), rational(right)) {
            (Some(left), Some(right)) => left.mul(right),
            _ => None,
        }
    } else {
        rational(text)
    };
    match found {
        Some(rat) => put_rat(rat, report),
        None => report.word("none"),
    }
}

/// `FACTOR*sNUMBER`, or a constant.
fn summand(alloc: Global, text: &str) -> Result<Term, TermFault> {
    match text.split_once("*s") {
        Some((factor, symbol)) => {
            let symbol = Sym(symbol.parse::<u64>().unwrap_or(0));
            Term::symbol(alloc, symbol).scale(alloc, number(factor))
        }
        None => Term::constant(alloc, number(text)).ok_or(TermFault::TooWide),
    }
}

/// The sum of summands with a space between each two.
fn sum(alloc: Global, text: &str) -> Result<Term, TermFault> {
    let mut sum = Term::constant(alloc, 0).ok_or(TermFault::TooWide)?;
    for word in text.split(' ') {
        let next = summand(alloc, word)?;
        sum = sum.add(alloc, &next)?;
    }
    Ok(sum)
}

fn put_found(found: Result<Term, TermFault>, report: &mut Report) {
    match found {
        Ok(term) => {
            for entry in term.entries() {
                report.number(entry.coefficient);
                report.word("*s");
                report.number(i128::from(entry.symbol));
                report.word(" ");
            }
            report.number(term.rest());
        }
        Err(TermFault::TooWide) => report.word("too wide"),
        Err(TermFault::Memory) => report.cut(),
    }
}

/// `term`: the sum of its summands.
pub(crate) fn put_term(alloc: Global, text: &str, report: &mut Report) {
    put_found(sum(alloc, text), report);
}

/// A number and a term behind it.
fn factor_and_term(alloc: Global, text: &str) -> Result<(u64, Term), TermFault> {
    let (factor, term) = text.split_once(' ').unwrap_or((text, ""));
    let term = sum(alloc, term)?;
    Ok((factor.parse::<u64>().unwrap_or(0), term))
}

fn combined(alloc: Global, left: &str, right: &str) -> Result<Term, TermFault> {
    let (a, left) = factor_and_term(alloc, left)?;
    let (b, right) = factor_and_term(alloc, right)?;
    let most = 1_099_511_627_775;
    left.combine(alloc, a.min(most), &right, b.min(most))
}

/// `combine`: a number and a term, `;`, and another number and term.
pub(crate) fn put_combined(alloc: Global, text: &str, report: &mut Report) {
    let (left, right) = text.split_once("; ").unwrap_or((text, ""));
    put_found(combined(alloc, left, right), report);
}

/// A query whose rows are the lines; behind `goal ` stands the goal.
fn query(alloc: Global, lines: &str) -> Result<Query, TermFault> {
    let mut facts = Items::new(alloc);
    let mut goal = sum(alloc, "0")?;
    for line in lines.split('\n') {
        if let Some(text) = line.strip_prefix("goal ") {
            goal = sum(alloc, text)?;
        } else if !line.is_empty() {
            let term = sum(alloc, line)?;
            facts.push(Row { term })?;
        }
    }
    let goal = Row { term: goal };
    Ok(Query { facts, goal })
}

/// `A*I+B*J`: A times row I and B times row J.
fn put_step(step: &Step, report: &mut Report) {
    report.word(" ");
    report.number(i128::from(step.a));
    report.word("*");
    report.number(i128::from(step.i));
    report.word("+");
    report.number(i128::from(step.b));
    report.word("*");
    report.number(i128::from(step.j));
}

fn put_answer(answer: &Answer, report: &mut Report) {
    match answer {
        Answer::Proved(steps) => {
            report.word("proved:");
            for step in steps.list.as_slice() {
                put_step(step, report);
            }
        }
        Answer::Refuted(assignment) => {
            report.word("refuted:");
            for (symbol, value) in assignment.list.as_slice() {
                report.word(" s");
                report.number(i128::from(symbol.0));
                report.word("=");
                put_rat(*value, report);
            }
        }
        Answer::LimitRows => report.word("limit of rows"),
        Answer::LimitDigits => report.word("limit of digits"),
    }
}

/// `decide`: the answer to the query of the lines, and whether its copy is the same.
pub(crate) fn put_decided(alloc: Global, lines: &str, report: &mut Report) {
    report.word(lines.trim_end());
    report.word("\n=> ");
    match query(alloc, lines) {
        Ok(query) => put_reply(alloc, &query, report),
        Err(TermFault::TooWide) => report.word("too wide"),
        Err(TermFault::Memory) => report.cut(),
    }
    report.word("\n");
}

fn put_reply(alloc: Global, query: &Query, report: &mut Report) {
    match Plain::new().decide(alloc, query) {
        Ok(answer) => match answer.copy(alloc) {
            Ok(copy) => put_answer(&copy, report),
            Err(_) => report.cut(),
        },
        Err(_) => report.cut(),
    }
}
