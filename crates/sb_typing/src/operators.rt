//! Which types operators take as operands, and what type their results have (C99 6.5.3 to 6.5.15).
ghost use Rattle.std.specs.Prelude.{◌≡◌};
ghost use Rattle.sb_typing.specs.Classes.{class_of};
ghost use Rattle.sb_typing.specs.Operators as spec;

use crate::classes::{class_of, compatible, is_complete, is_void};
use crate::numbers::{promoted, usual};
use crate::operands::{Class, Comparison, Joint, Operand};
use sb_core::{CompareOp, Kind, NumOp, TypeId};

/// The type of an operand of unary `+`, `-` and `~` and of their result (6.5.3.3): a promoted number type.
pub fn unary_type(types: &[Kind], t: TypeId) -> Option<TypeId>
    ensures { result ≡ spec.unary_type types.now t }
{
    match class_of(types, t) {
        Class::Number => Some(promoted(t)),
        Class::Pointer(_) | Class::Struct | Class::Void | Class::Other => None,
    }
}

/// Whether two types are number types.
fn are_numbers(left: Class, right: Class) -> bool
    ensures { result ≡ spec.are_numbers left right }
{
    match left {
        Class::Number => match right {
            Class::Number => true,
            Class::Pointer(_) | Class::Struct | Class::Void | Class::Other => false,
        },
        Class::Pointer(_) | Class::Struct | Class::Void | Class::Other => false,
    }
}

/// What an operator on two numbers in one type does (6.5.5, 6.5.10 to 6.5.12).
fn both_numbers(left: Class, right: Class, t: TypeId, u: TypeId) -> Option<Joint>
    ensures { result ≡ spec.both_numbers left right t u }
{
    if are_numbers(left, right) {
        Some(Joint::Numbers(usual(t, u)))
    } else {
        None
    }
}

/// What a shift does (6.5.7).
fn shift(left: Class, right: Class, t: TypeId, u: TypeId) -> Option<Joint>
    ensures { result ≡ spec.shift left right t u }
{
    if are_numbers(left, right) {
        Some(Joint::Shift(promoted(t), promoted(u)))
    } else {
        None
    }
}

/// What `+` does (6.5.6).
fn sum(types: &[Kind], left: Class, right: Class, t: TypeId, u: TypeId) -> Option<Joint>
    ensures { result ≡ spec.sum types.now left right t u }
{
    match left {
        Class::Number => match right {
            Class::Number => Some(Joint::Numbers(usual(t, u))),
            Class::Pointer(b) if is_complete(types, b) => Some(Joint::RightMoved(b)),
            Class::Pointer(_) | Class::Struct | Class::Void | Class::Other => None,
        },
        Class::Pointer(a) => match right {
            Class::Number if is_complete(types, a) => Some(Joint::LeftMoved(a)),
            Class::Number | Class::Pointer(_) | Class::Struct | Class::Void | Class::Other => None,
        },
        Class::Struct | Class::Void | Class::Other => None,
    }
}

/// How many elements lie between two pointers to compatible complete types (6.5.6).
fn distance(types: &[Kind], a: TypeId, b: TypeId) -> Option<Joint>
    ensures { result ≡ spec.distance types.now a b }
{
    if is_complete(types, a) && is_complete(types, b) && compatible(types, a, b) {
        Some(Joint::Distance(a))
    } else {
        None
    }
}

/// What `-` does (6.5.6).
fn difference(types: &[Kind], left: Class, right: Class, t: TypeId, u: TypeId) -> Option<Joint>
    ensures { result ≡ spec.difference types.now left right t u }
{
    match left {
        Class::Number => match right {
            Class::Number => Some(Joint::Numbers(usual(t, u))),
            Class::Pointer(_) | Class::Struct | Class::Void | Class::Other => None,
        },
        Class::Pointer(a) => match right {
            Class::Number if is_complete(types, a) => Some(Joint::LeftMoved(a)),
            Class::Pointer(b) => distance(types, a, b),
            Class::Number | Class::Struct | Class::Void | Class::Other => None,
        },
        Class::Struct | Class::Void | Class::Other => None,
    }
}

/// What an operator with operands of two types does, where a constraint allows them.
pub fn joint(types: &[Kind], op: NumOp, t: TypeId, u: TypeId) -> Option<Joint>
    ensures { result ≡ spec.joint_for types.now op t u }
{
    let left = class_of(types, t);
    let right = class_of(types, u);
    match op {
        NumOp::Add => sum(types, left, right, t, u),
        NumOp::Sub => difference(types, left, right, t, u),
        NumOp::Shl | NumOp::Shr => shift(left, right, t, u),
        NumOp::Mul | NumOp::Div | NumOp::Rem | NumOp::And | NumOp::Xor | NumOp::Or => {
            both_numbers(left, right, t, u)
        }
    }
}

/// How `<`, `<=`, `>` and `>=` compare (6.5.8).
fn order(types: &[Kind], left: Class, right: Class, t: TypeId, u: TypeId) -> Option<Comparison>
    ensures { result ≡ spec.order types.now left right t u }
{
    match left {
        Class::Number => match right {
            Class::Number => Some(Comparison::Numbers(usual(t, u))),
            Class::Pointer(_) | Class::Struct | Class::Void | Class::Other => None,
        },
        Class::Pointer(a) => match right {
            Class::Pointer(b) if compatible(types, a, b) => Some(Comparison::Pointers),
            Class::Number | Class::Pointer(_) | Class::Struct | Class::Void | Class::Other => None,
        },
        Class::Struct | Class::Void | Class::Other => None,
    }
}

/// Whether pointers to two types are compared and assigned: where they are compatible or one is `void`.
pub(crate) fn go_together(types: &[Kind], a: TypeId, b: TypeId) -> bool
    ensures { result ≡ spec.go_together types.now a b }
{
    compatible(types, a, b) || is_void(a) || is_void(b)
}

/// How `==` and `!=` compare (6.5.9).
fn equality(types: &[Kind], left: Operand, right: Operand) -> Option<Comparison>
    ensures { result ≡ spec.equality types.now (class_of types.now left.type_id)
        (class_of types.now right.type_id) left right }
{
    match class_of(types, left.type_id) {
        Class::Number => match class_of(types, right.type_id) {
            Class::Number => Some(Comparison::Numbers(usual(left.type_id, right.type_id))),
            Class::Pointer(_) if left.null => Some(Comparison::LeftNull),
            Class::Pointer(_) | Class::Struct | Class::Void | Class::Other => None,
        },
        Class::Pointer(a) => match class_of(types, right.type_id) {
            Class::Number if right.null => Some(Comparison::RightNull),
            Class::Pointer(b) if go_together(types, a, b) => Some(Comparison::Pointers),
            Class::Number | Class::Pointer(_) | Class::Struct | Class::Void | Class::Other => None,
        },
        Class::Struct | Class::Void | Class::Other => None,
    }
}

/// How two operands are compared, where a constraint allows them.
pub fn comparison(
    types: &[Kind],
    op: CompareOp,
    left: Operand,
    right: Operand,
) -> Option<Comparison>
    ensures { result ≡ spec.comparison_for types.now op left right }
{
    match op {
        CompareOp::Less | CompareOp::AtMost | CompareOp::Greater | CompareOp::AtLeast => order(
            types,
            class_of(types, left.type_id),
            class_of(types, right.type_id),
            left.type_id,
            right.type_id,
        ),
        CompareOp::Equal | CompareOp::NotEqual => equality(types, left, right),
    }
}
