//! Expressions of the core (C99 6.5): conversions are explicit, and none has an effect.

use crate::operator::{CompareOp, NumOp, SignOp};
use crate::types::TypeId;
use sb_base::Place;

/// An expression without effects. Locals are named by their position in the function's list, sizes are bytes, and the
/// place of an operator is where a stop or a fault stands.
#[derive(Drop)]
#[cycle(expressions)]
pub enum CoreExpr {
    /// A number in the range of its type.
    Number(i128, TypeId),
    /// The null pointer (6.3.2.3).
    Null,
    /// The value of a plain local.
    Local {
        local: u32,
        kind: TypeId,
        place: Place,
    },
    /// The pointer to a local that is not plain, to a literal or to a table.
    At(u32),
    /// What stands in memory at a pointer (6.5.3.2).
    Load {
        at: Box<CoreExpr>,
        kind: TypeId,
        size: u64,
        place: Place,
    },
    Unary {
        op: SignOp,
        of: Box<CoreExpr>,
        kind: TypeId,
    },
    Binary {
        op: NumOp,
        left: Box<CoreExpr>,
        right: Box<CoreExpr>,
        kind: TypeId,
        place: Place,
    },
    /// A number in another type (6.3.1).
    Convert {
        of: Box<CoreExpr>,
        kind: TypeId,
    },
    /// A pointer that many units on (6.5.6), or back where the unit is negative.
    Move {
        base: Box<CoreExpr>,
        by: Box<CoreExpr>,
        unit: i64,
    },
    /// How many units lie between two pointers (6.5.6).
    Distance {
        left: Box<CoreExpr>,
        right: Box<CoreExpr>,
        unit: u64,
        place: Place,
    },
    /// Whether two numbers, or two pointers, compare so: 1 or 0 of type `int` (6.5.8, 6.5.9).
    Compare {
        op: CompareOp,
        left: Box<CoreExpr>,
        right: Box<CoreExpr>,
    },
    /// 1 where a number is 0 or a pointer is null, else 0 (6.5.3.3).
    Not(Box<CoreExpr>),
    And(Box<CoreExpr>, Box<CoreExpr>),
    Or(Box<CoreExpr>, Box<CoreExpr>),
    /// `test ? yes : no` (6.5.15).
    Choose {
        test: Box<CoreExpr>,
        yes: Box<CoreExpr>,
        no: Box<CoreExpr>,
    },
}
