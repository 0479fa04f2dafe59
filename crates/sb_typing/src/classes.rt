//! What types are to operators, and which types are compatible (C99 6.2.5, 6.2.7, 6.3.2.3).
ghost use Rattle.std.specs.Prelude.{◌≡◌, Some};
ghost use Rattle.sb_core.specs.Plain.{plain_expression};
ghost use Rattle.sb_typing.specs.Folding.{value_of};
ghost use Rattle.sb_typing.specs.Classes as spec;

use crate::folding::constant_value;
use crate::numbers::is_number;
use crate::operands::{Class, Operand};
use sb_core::{CoreExpr, Kind, TypeId};

/// What a type that is no number is to operators.
fn class_of_kind(kind: &Kind) -> Class
    ensures { result ≡ spec.class_of_kind (Some kind.now) }
{
    match kind {
        Kind::Void => Class::Void,
        Kind::Pointer(t) => Class::Pointer(*t),
        Kind::Struct(..) => Class::Struct,
        Kind::Number { .. } | Kind::Array(..) => Class::Other,
    }
}

/// What a type is to operators.
pub fn class_of(types: &[Kind], t: TypeId) -> Class
    ensures { result ≡ spec.class_of types.now t }
{
    if is_number(t) {
        return Class::Number;
    }
    match types.get(t.0 as usize) {
        Some(kind) => class_of_kind(kind),
        None => Class::Other,
    }
}

/// Whether a type is scalar: a number type or a pointer.
pub fn is_scalar(types: &[Kind], t: TypeId) -> bool
    ensures { result ≡ spec.is_scalar types.now t }
{
    match class_of(types, t) {
        Class::Number | Class::Pointer(_) => true,
        Class::Struct | Class::Void | Class::Other => false,
    }
}

/// Whether a type is `void`.
pub(crate) fn is_void(t: TypeId) -> bool
    ensures { result ≡ spec.is_void t }
{
    t.0 == 0
}

/// Whether objects may have a type that is one of a table.
fn is_complete_kind(kind: &Kind) -> bool
    ensures { result ≡ spec.is_complete_kind (Some kind.now) }
{
    match kind {
        Kind::Void => false,
        Kind::Number { .. } | Kind::Pointer(_) => true,
        Kind::Array(_, count) => *count > 0,
        Kind::Struct(_, members) => !members.is_empty(),
    }
}

/// Whether objects may have a type: not `void`, an array of unknown length, or a struct that is not completed.
pub fn is_complete(types: &[Kind], t: TypeId) -> bool
    ensures { result ≡ spec.is_complete types.now t }
{
    match types.get(t.0 as usize) {
        Some(kind) => is_complete_kind(kind),
        None => false,
    }
}

/// Whether two lengths of arrays may be one: 0 is a length that is not known.
fn lengths_agree(m: u64, n: u64) -> bool
    ensures { result ≡ spec.lengths_agree m n }
{
    m == n || m == 0 || n == 0
}

/// What two pointers point to, or the elements of two arrays whose lengths agree.
fn parts_of_kinds(left: &Kind, right: &Kind) -> Option<(TypeId, TypeId)>
    ensures { result ≡ spec.parts_of_kinds (Some left.now) (Some right.now) }
{
    match left {
        Kind::Pointer(a) => match right {
            Kind::Pointer(b) => Some((*a, *b)),
            Kind::Void | Kind::Number { .. } | Kind::Array(..) | Kind::Struct(..) => None,
        },
        Kind::Array(a, m) => match right {
            Kind::Array(b, n) if lengths_agree(*m, *n) => Some((*a, *b)),
            Kind::Void
            | Kind::Number { .. }
            | Kind::Array(..)
            | Kind::Pointer(_)
            | Kind::Struct(..) => None,
        },
        Kind::Void | Kind::Number { .. } | Kind::Struct(..) => None,
    }
}

/// What two types of a table have as parts, where these decide whether they are compatible.
fn parts_of(types: &[Kind], t: TypeId, u: TypeId) -> Option<(TypeId, TypeId)>
    ensures { result ≡ spec.parts_of types.now t u }
{
    let left = types.get(t.0 as usize)?;
    let right = types.get(u.0 as usize)?;
    parts_of_kinds(left, right)
}

/// Whether two types are compatible (6.2.7).
pub fn compatible(types: &[Kind], t: TypeId, u: TypeId) -> bool
    ensures { result ≡ spec.compatible types.now t u }
{
    let mut left = t;
    let mut right = u;
    for _depth in 0..types.len() {
        if left.0 == right.0 {
            return true;
        }
        match parts_of(types, left, right) {
            Some(parts) => {
                left = parts.0;
                right = parts.1;
            }
            None => return false,
        }
    }
    left.0 == right.0
}

/// Whether an expression is the null pointer.
#[tactic(auto, unfolding(sb_core::specs::Plain::plain_expression))]
fn is_null(e: &CoreExpr) -> bool
    ensures { result ≡ spec.is_null (plain_expression e.now) }
{
    match e {
        CoreExpr::Null => true,
        CoreExpr::Number(..)
        | CoreExpr::Local { .. }
        | CoreExpr::At(_)
        | CoreExpr::Load { .. }
        | CoreExpr::Unary { .. }
        | CoreExpr::Binary { .. }
        | CoreExpr::Convert { .. }
        | CoreExpr::Move { .. }
        | CoreExpr::Distance { .. }
        | CoreExpr::Compare { .. }
        | CoreExpr::Not(_)
        | CoreExpr::And(..)
        | CoreExpr::Or(..)
        | CoreExpr::Choose { .. } => false,
    }
}

/// Whether an expression is a constant 0.
fn is_constant_zero(e: &CoreExpr) -> bool
    ensures { result ≡ spec.is_zero_value (value_of (plain_expression e.now)) }
{
    match constant_value(e) {
        Some(value) => value == 0,
        None => false,
    }
}

/// Whether an expression of a type is a null pointer constant: a constant 0, or the null pointer to `void`.
fn is_null_constant(types: &[Kind], e: &CoreExpr, t: TypeId) -> bool
    ensures { result ≡ spec.is_null_constant types.now (plain_expression e.now) t }
{
    match class_of(types, t) {
        Class::Number => is_constant_zero(e),
        Class::Pointer(target) => is_void(target) && is_null(e),
        Class::Struct | Class::Void | Class::Other => false,
    }
}

/// An expression of a type as an operand.
pub fn operand(types: &[Kind], e: &CoreExpr, t: TypeId) -> Operand
    ensures { result ≡ spec.operand_of types.now (plain_expression e.now) t }
{
    Operand {
        type_id: t,
        null: is_null_constant(types, e, t),
    }
}
