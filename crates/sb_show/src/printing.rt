//! Trees as text: each node in parentheses behind its word, and its parts in order.

use crate::declarations::{arg, decl, init, item, note};
use crate::expressions::expr;
use crate::parts::{Part, Plan};
use crate::report::Report;
use crate::statements::stmt;
use crate::type_names::type_name;
use sb_base::{Name, Names, Place};
use std::alloc::Global;
use std::str;

/// `LINE:COLUMN`
pub fn put_place(place: Place, report: &mut Report) {
    report.number(i128::from(place.line));
    report.word(":");
    report.number(i128::from(place.col));
}

fn is_decimal_of(text: &[u8], value: u64) -> bool {
    match str::from_utf8(text) {
        Ok(text) => text.parse::<u64>().ok() == Some(value),
        Err(_) => false,
    }
}

/// The spelling of a constant, with its value where it is not spelled in decimal.
pub fn put_valued(names: &Names, name: Name, value: u64, report: &mut Report) {
    let text = names.text(name).unwrap_or(b"no text");
    report.bytes(text);
    if !is_decimal_of(text, value) {
        report.word("=");
        report.number(i128::from(value));
    }
}

/// The bytes of a literal between quotes.
pub fn put_text(names: &Names, name: Name, report: &mut Report) {
    report.word("\"");
    report.bytes(names.text(name).unwrap_or(b"no text"));
    report.word("\"");
}

fn put_word(word: &str, report: &mut Report) {
    if !matches!(word.as_bytes().first(), None | Some(b')' | b']' | b'}')) {
        report.space();
    }
    report.word(word);
}

/// Writes a part that has no parts.
fn put_leaf(names: &Names, leaf: Part, is_placed: bool, report: &mut Report) {
    match leaf {
        Part::Word(word) => put_word(word, report),
        Part::Name(name) => {
            report.space();
            report.bytes(names.text(name).unwrap_or(b"no text"));
        }
        Part::Number(name, value) => {
            report.space();
            put_valued(names, name, value, report);
        }
        Part::Literal(name) => {
            report.space();
            put_text(names, name, report);
        }
        Part::Place(place) if is_placed => {
            report.word("@");
            put_place(place, report);
        }
        _ => {}
    }
}

/// Plans the first part of a list, and then the others.
fn spread<'a>(plan: &mut Plan<'a>, list: Part<'a>) {
    match list {
        Part::Exprs([first, rest @ ..]) => plan.first(&[Part::Expr(first), Part::Exprs(rest)]),
        Part::Items([first, rest @ ..]) => plan.first(&[Part::Item(first), Part::Items(rest)]),
        Part::Notes([first, rest @ ..]) => plan.first(&[Part::Note(first), Part::Notes(rest)]),
        Part::Args([first, rest @ ..]) => plan.first(&[Part::Arg(first), Part::Args(rest)]),
        Part::Inits([first, rest @ ..]) => plan.first(&[Part::Init(first), Part::Inits(rest)]),
        Part::Decls([first, rest @ ..]) => plan.first(&[Part::Decl(first), Part::Decls(rest)]),
        Part::Stmts([first, rest @ ..]) => plan.first(&[Part::Stmt(first), Part::Stmts(rest)]),
        _ => {}
    }
}

/// Plans the parts of a node or of a list.
fn unfold<'a>(plan: &mut Plan<'a>, part: Part<'a>) {
    match part {
        Part::Expr(node) => expr(plan, node),
        Part::Type(node) => type_name(plan, node),
        Part::Item(node) => item(plan, node),
        Part::Note(node) => note(plan, node),
        Part::Arg(node) => arg(plan, node),
        Part::Init(node) => init(plan, node),
        Part::Decl(node) => decl(plan, node),
        Part::Stmt(node) => stmt(plan, node),
        _ => spread(plan, part),
    }
}

/// Writes a part of a tree, with the places of its nodes where they are asked for.
pub fn put_part(alloc: Global, names: &Names, part: Part, is_placed: bool, report: &mut Report) {
    let mut plan = Plan::new(alloc);
    plan.first(&[part]);
    for _turn in 0..u64::MAX {
        let Some(part) = plan.next() else {
            break;
        };
        put_leaf(names, part, is_placed, report);
        unfold(&mut plan, part);
    }
    if plan.is_cut() {
        report.cut();
    }
}
