//! What is still to be written of a tree, the next part last: so a tree is written without recursion, however deep it is.

use sb_base::{Name, Place};
use sb_tree::{Arg, Decl, Expr, Init, Item, Note, Stmt, TypeName};
use std::alloc::Global;

/// A part of a tree, or a word or a name in it.
#[derive(Clone, Copy)]
pub enum Part<'a> {
    Word(&'static str),
    Name(Name),
    Number(Name, u64),
    Literal(Name),
    Place(Place),
    Expr(&'a Expr),
    Exprs(&'a [Expr]),
    Type(&'a TypeName),
    Item(&'a Item),
    Items(&'a [Item]),
    Note(&'a Note),
    Notes(&'a [Note]),
    Arg(&'a Arg),
    Args(&'a [Arg]),
    Init(&'a Init),
    Inits(&'a [Init]),
    Decl(&'a Decl),
    Decls(&'a [Decl]),
    Stmt(&'a Stmt),
    Stmts(&'a [Stmt]),
}

/// What a part that is not there is written as.
pub(crate) const ABSENT: &str = "-";

pub(crate) fn name_part<'a>(name: Option<Name>) -> Part<'a> {
    match name {
        Some(name) => Part::Name(name),
        None => Part::Word(ABSENT),
    }
}

pub(crate) fn expr_part<'a>(expr: &'a Option<Expr>) -> Part<'a> {
    match expr {
        Some(expr) => Part::Expr(expr),
        None => Part::Word(ABSENT),
    }
}

pub(crate) fn boxed_expr_part<'a>(expr: &'a Option<Box<Expr>>) -> Part<'a> {
    match expr {
        Some(expr) => Part::Expr(expr),
        None => Part::Word(ABSENT),
    }
}

pub(crate) fn boxed_stmt_part<'a>(stmt: &'a Option<Box<Stmt>>) -> Part<'a> {
    match stmt {
        Some(stmt) => Part::Stmt(stmt),
        None => Part::Word(ABSENT),
    }
}

/// The parts that are still to be written. Where memory runs out it is cut, and says so.
#[derive(Drop)]
pub(crate) struct Plan<'a> {
    parts: Vec<Part<'a>>,
    is_cut: bool,
}

impl<'a> Plan<'a> {
    pub(crate) fn new(alloc: Global) -> Plan<'a> {
        Plan {
            parts: Vec::new(alloc),
            is_cut: false,
        }
    }

    pub(crate) fn is_cut(&self) -> bool {
        self.is_cut
    }

    /// The part that comes next.
    pub(crate) fn next(&mut self) -> Option<Part<'a>> {
        self.parts.pop()
    }

    fn push(&mut self, part: Part<'a>) {
        if self.parts.push(part).is_err() {
            self.is_cut = true;
        }
    }

    /// These parts come first, one after the other.
    pub(crate) fn first(&mut self, parts: &[Part<'a>]) {
        for part in parts.iter().rev() {
            self.push(*part);
        }
    }

    /// These parts come first, between an opening and a closing word.
    pub(crate) fn between(
        &mut self,
        opening: &'static str,
        parts: &[Part<'a>],
        closing: &'static str,
    ) {
        self.push(Part::Word(closing));
        self.first(parts);
        self.push(Part::Word(opening));
    }

    /// A node at a place comes first: its word and its parts.
    pub(crate) fn node(&mut self, word: &'static str, place: Place, parts: &[Part<'a>]) {
        self.push(Part::Word(")"));
        self.first(parts);
        self.push(Part::Place(place));
        self.push(Part::Word(word));
        self.push(Part::Word("("));
    }
}
