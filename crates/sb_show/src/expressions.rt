//! The parts of expressions.

use crate::parts::{ABSENT, Part, Plan};
use crate::words::{assignment_word, binary_word, unary_word};
use sb_tree::Expr;

/// An operator with its operands.
fn operation<'a>(plan: &mut Plan<'a>, node: &'a Expr) {
    match node {
        Expr::Unary { op, of, place } => plan.node(unary_word(*op), *place, &[Part::Expr(of)]),
        Expr::Binary {
            op,
            left,
            right,
            place,
        } => plan.node(
            binary_word(*op),
            *place,
            &[Part::Expr(left), Part::Expr(right)],
        ),
        Expr::Assign {
            op,
            to,
            value,
            place,
        } => plan.node(
            assignment_word(*op),
            *place,
            &[Part::Expr(to), Part::Expr(value)],
        ),
        Expr::Cond {
            test,
            yes,
            no,
            place,
        } => plan.node(
            "?",
            *place,
            &[Part::Expr(test), Part::Expr(yes), Part::Expr(no)],
        ),
        Expr::Paren { of, place } => plan.node("paren", *place, &[Part::Expr(of)]),
        _ => plan.first(&[Part::Word("?")]),
    }
}

/// An operand with what stands behind it, a cast or a size.
fn operand<'a>(plan: &mut Plan<'a>, node: &'a Expr) {
    match node {
        Expr::Call {
            callee,
            args,
            place,
        } => plan.node("call", *place, &[Part::Expr(callee), Part::Exprs(args)]),
        Expr::Index { base, at, place } => {
            plan.node("[]", *place, &[Part::Expr(base), Part::Expr(at)])
        }
        Expr::Member {
            of,
            arrow,
            name,
            name_place,
            place,
        } => plan.node(
            if *arrow { "->" } else { "." },
            *place,
            &[Part::Expr(of), Part::Name(*name), Part::Place(*name_place)],
        ),
        Expr::Cast { to, of, place } => {
            plan.node("cast", *place, &[Part::Type(to), Part::Expr(of)])
        }
        Expr::SizeOfType { named, place } => plan.node(
            "sizeof",
            *place,
            &[Part::Type(named), Part::Word(ABSENT)],
        ),
        Expr::SizeOfExpr { of, place } => plan.node(
            "sizeof",
            *place,
            &[Part::Word(ABSENT), Part::Expr(of)],
        ),
        _ => operation(plan, node),
    }
}

pub(crate) fn expr<'a>(plan: &mut Plan<'a>, node: &'a Expr) {
    match node {
        Expr::Number { text, value, place } => plan.first(&[
            Part::Number(*text, *value),
            Part::Place(*place),
        ]),
        Expr::Text { text, place } => plan.first(&[Part::Literal(*text), Part::Place(*place)]),
        Expr::Name { name, place } => plan.first(&[Part::Name(*name), Part::Place(*place)]),
        _ => operand(plan, node),
    }
}
