//! Expressions put together: each call makes one node of its parts.
ghost use Rattle.std.specs.Prelude.{◌≡◌};
ghost use Rattle.sb_core.specs.Trees as core;
ghost use Rattle.sb_core.specs.Plain.{plain_expression};

use crate::expression::CoreExpr;
use crate::operator::{CompareOp, NumOp, SignOp};
use crate::types::TypeId;
use sb_base::Place;

impl CoreExpr {
    /// A constant (6.4.4).
    #[tactic(auto, unfolding(crate::specs::Plain::plain_expression))]
    pub fn number(value: i128, kind: TypeId) -> CoreExpr
        ensures { plain_expression result ≡ core.Number value kind }
    {
        CoreExpr::Number(value, kind)
    }

    /// The null pointer (6.3.2.3).
    #[tactic(auto, unfolding(crate::specs::Plain::plain_expression))]
    pub fn null() -> CoreExpr
        ensures { plain_expression result ≡ core.Null }
    {
        CoreExpr::Null
    }

    /// The value of a plain local.
    #[tactic(auto, unfolding(crate::specs::Plain::plain_expression))]
    pub fn local(local: u32, kind: TypeId, place: Place) -> CoreExpr
        ensures { plain_expression result ≡ core.Local local kind place }
    {
        CoreExpr::Local { local, kind, place }
    }

    /// The pointer to a local.
    #[tactic(auto, unfolding(crate::specs::Plain::plain_expression))]
    pub fn at(local: u32) -> CoreExpr
        ensures { plain_expression result ≡ core.At local }
    {
        CoreExpr::At(local)
    }

    /// What stands at a pointer.
    #[tactic(auto, unfolding(crate::specs::Plain::plain_expression))]
    pub fn load(at: Box<CoreExpr>, kind: TypeId, size: u64, place: Place) -> CoreExpr
        ensures { plain_expression result ≡ core.Load (plain_expression at.value) kind size place }
    {
        CoreExpr::Load {
            at,
            kind,
            size,
            place,
        }
    }

    /// `-` or `~` of a number (6.5.3.3).
    #[tactic(auto, unfolding(crate::specs::Plain::plain_expression))]
    pub fn unary(op: SignOp, of: Box<CoreExpr>, kind: TypeId) -> CoreExpr
        ensures { plain_expression result ≡ core.Unary op (plain_expression of.value) kind }
    {
        CoreExpr::Unary { op, of, kind }
    }

    /// An operator on two numbers.
    #[tactic(auto, unfolding(crate::specs::Plain::plain_expression))]
    pub fn binary(
        op: NumOp,
        left: Box<CoreExpr>,
        right: Box<CoreExpr>,
        kind: TypeId,
        place: Place,
    ) -> CoreExpr
        ensures { plain_expression result ≡ core.Binary op (plain_expression left.value)
            (plain_expression right.value) kind place }
    {
        CoreExpr::Binary {
            op,
            left,
            right,
            kind,
            place,
        }
    }

    /// A number in another type (6.3.1).
    #[tactic(auto, unfolding(crate::specs::Plain::plain_expression))]
    pub fn convert(of: Box<CoreExpr>, kind: TypeId) -> CoreExpr
        ensures { plain_expression result ≡ core.Convert (plain_expression of.value) kind }
    {
        CoreExpr::Convert { of, kind }
    }

    /// A pointer moved by a number of units (6.5.6).
    #[tactic(auto, unfolding(crate::specs::Plain::plain_expression))]
    pub fn moved(base: Box<CoreExpr>, by: Box<CoreExpr>, unit: i64) -> CoreExpr
        ensures { plain_expression result
            ≡ core.Move (plain_expression base.value) (plain_expression by.value) unit }
    {
        CoreExpr::Move { base, by, unit }
    }

    /// How many units lie between two pointers (6.5.6).
    #[tactic(auto, unfolding(crate::specs::Plain::plain_expression))]
    pub fn distance(left: Box<CoreExpr>, right: Box<CoreExpr>, unit: u64, place: Place) -> CoreExpr
        ensures { plain_expression result ≡ core.Distance (plain_expression left.value)
            (plain_expression right.value) unit place }
    {
        CoreExpr::Distance {
            left,
            right,
            unit,
            place,
        }
    }

    /// A comparison (6.5.8, 6.5.9).
    #[tactic(auto, unfolding(crate::specs::Plain::plain_expression))]
    pub fn compare(op: CompareOp, left: Box<CoreExpr>, right: Box<CoreExpr>) -> CoreExpr
        ensures { plain_expression result ≡ core.Compare op (plain_expression left.value)
            (plain_expression right.value) }
    {
        CoreExpr::Compare { op, left, right }
    }

    /// `!` (6.5.3.3).
    #[tactic(auto, unfolding(crate::specs::Plain::plain_expression))]
    pub fn not(of: Box<CoreExpr>) -> CoreExpr
        ensures { plain_expression result ≡ core.Not (plain_expression of.value) }
    {
        CoreExpr::Not(of)
    }

    /// `&&` without effects (6.5.13).
    #[tactic(auto, unfolding(crate::specs::Plain::plain_expression))]
    pub fn and(left: Box<CoreExpr>, right: Box<CoreExpr>) -> CoreExpr
        ensures { plain_expression result
            ≡ core.And (plain_expression left.value) (plain_expression right.value) }
    {
        CoreExpr::And(left, right)
    }

    /// `||` without effects (6.5.14).
    #[tactic(auto, unfolding(crate::specs::Plain::plain_expression))]
    pub fn or(left: Box<CoreExpr>, right: Box<CoreExpr>) -> CoreExpr
        ensures { plain_expression result
            ≡ core.Or (plain_expression left.value) (plain_expression right.value) }
    {
        CoreExpr::Or(left, right)
    }

    /// `test ? yes : no` without effects (6.5.15).
    #[tactic(auto, unfolding(crate::specs::Plain::plain_expression))]
    pub fn choose(test: Box<CoreExpr>, yes: Box<CoreExpr>, no: Box<CoreExpr>) -> CoreExpr
        ensures { plain_expression result
            ≡ core.Choose (plain_expression test.value) (plain_expression yes.value)
            (plain_expression no.value) }
    {
        CoreExpr::Choose { test, yes, no }
    }
}
