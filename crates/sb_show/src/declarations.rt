//! The parts of declarations, initialisers, constants of enumerations and annotations.

use crate::parts::{Part, Plan, expr_part, name_part};
use crate::words::storage_word;
use sb_tree::{Arg, Decl, Init, Item, Note, Stmt};

/// `=`, if there is an initialiser.
fn sign_part<'a>(init: &'a Option<Init>) -> Part<'a> {
    Part::Word(if init.is_some() { "=" } else { "" })
}

/// The initialiser, if there is one.
fn init_part<'a>(init: &'a Option<Init>) -> Part<'a> {
    match init {
        Some(init) => Part::Init(init),
        None => Part::Word(""),
    }
}

/// The body, if there is one.
fn body_part<'a>(body: &'a Option<Stmt>) -> Part<'a> {
    match body {
        Some(body) => Part::Stmt(body),
        None => Part::Word(""),
    }
}

/// Annotations, storage, name and type; `=` and an initialiser; a body.
pub(crate) fn decl<'a>(plan: &mut Plan<'a>, node: &'a Decl) {
    plan.node(
        "decl",
        node.place,
        &[
            Part::Notes(&node.notes),
            Part::Word(storage_word(node.storage)),
            name_part(node.name),
            Part::Type(&node.type_name),
            sign_part(&node.init),
            init_part(&node.init),
            body_part(&node.body),
        ],
    );
}

pub(crate) fn init<'a>(plan: &mut Plan<'a>, node: &'a Init) {
    match node {
        Init::One(value) => plan.first(&[Part::Expr(value)]),
        Init::List(list, place) => {
            plan.between("{", &[Part::Inits(list)], "}");
            plan.first(&[Part::Place(*place)]);
        }
    }
}

pub(crate) fn item<'a>(plan: &mut Plan<'a>, node: &'a Item) {
    plan.node(
        "item",
        node.place,
        &[Part::Name(node.name), expr_part(&node.value)],
    );
}

pub(crate) fn note<'a>(plan: &mut Plan<'a>, node: &'a Note) {
    plan.between(
        "(@",
        &[
            Part::Name(node.name),
            Part::Place(node.place),
            Part::Args(&node.args),
        ],
        ")",
    );
}

pub(crate) fn arg<'a>(plan: &mut Plan<'a>, node: &'a Arg) {
    match node {
        Arg::Expr(value) => plan.first(&[Part::Expr(value)]),
        Arg::Note(inner) => plan.first(&[Part::Note(inner)]),
    }
}
