//! The parts of statements.

use crate::parts::{Part, Plan, boxed_stmt_part, expr_part};
use sb_tree::Stmt;

/// A jump or what it may lead to.
fn jump<'a>(plan: &mut Plan<'a>, node: &'a Stmt) {
    match node {
        Stmt::Case { value, body, place } => {
            plan.node("case", *place, &[Part::Expr(value), Part::Stmt(body)])
        }
        Stmt::Default { body, place } => plan.node("default", *place, &[Part::Stmt(body)]),
        Stmt::Label { name, body, place } => {
            plan.node("label", *place, &[Part::Name(*name), Part::Stmt(body)])
        }
        Stmt::Goto {
            name,
            name_place,
            place,
        } => plan.node(
            "goto",
            *place,
            &[Part::Name(*name), Part::Place(*name_place)],
        ),
        Stmt::Break(place) => plan.node("break", *place, &[]),
        Stmt::Continue(place) => plan.node("continue", *place, &[]),
        Stmt::Return { value, place } => plan.node("return", *place, &[expr_part(value)]),
        _ => plan.first(&[Part::Word("?")]),
    }
}

/// A statement that repeats another.
fn repetition<'a>(plan: &mut Plan<'a>, node: &'a Stmt) {
    match node {
        Stmt::While { test, body, place } => {
            plan.node("while", *place, &[Part::Expr(test), Part::Stmt(body)])
        }
        Stmt::Do { body, test, place } => {
            plan.node("do", *place, &[Part::Stmt(body), Part::Expr(test)])
        }
        Stmt::For {
            first,
            test,
            step,
            body,
            place,
        } => plan.node(
            "for",
            *place,
            &[
                boxed_stmt_part(first),
                expr_part(test),
                expr_part(step),
                Part::Stmt(body),
            ],
        ),
        _ => jump(plan, node),
    }
}

pub(crate) fn stmt<'a>(plan: &mut Plan<'a>, node: &'a Stmt) {
    match node {
        Stmt::Block { list, place, end } => plan.node(
            "block",
            *place,
            &[Part::Stmts(list), Part::Place(*end)],
        ),
        Stmt::Expr { value, place } => plan.node("eval", *place, &[expr_part(value)]),
        Stmt::Decl { list, place } => plan.node("declare", *place, &[Part::Decls(list)]),
        Stmt::If {
            test,
            yes,
            no,
            place,
        } => plan.node(
            "if",
            *place,
            &[Part::Expr(test), Part::Stmt(yes), boxed_stmt_part(no)],
        ),
        Stmt::Switch { on, body, place } => {
            plan.node("switch", *place, &[Part::Expr(on), Part::Stmt(body)])
        }
        _ => repetition(plan, node),
    }
}
