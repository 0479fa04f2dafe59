//! The type of `?:` (C99 6.5.15).
ghost use Rattle.std.specs.Prelude.{◌≡◌};
ghost use Rattle.sb_typing.specs.Operators as spec;

use crate::classes::{class_of, compatible, is_void};
use crate::numbers::usual;
use crate::operands::{Choice, Class, Operand};
use sb_core::{Kind, TypeId};

/// Of two operands that point to types that are not compatible, the one whose type the result has.
fn choice_by_void(a: TypeId, b: TypeId, second: Operand, third: Operand) -> Option<Choice>
    ensures { result ≡ spec.choice_by_void a b second third }
{
    if second.null {
        Some(Choice::Kept(third.type_id))
    } else if third.null || is_void(a) {
        Some(Choice::Kept(second.type_id))
    } else if is_void(b) {
        Some(Choice::Kept(third.type_id))
    } else {
        None
    }
}

/// The type of `?:` of operands that point to two types.
fn pointer_choice(
    types: &[Kind],
    a: TypeId,
    b: TypeId,
    second: Operand,
    third: Operand,
) -> Option<Choice>
    ensures { result ≡ spec.pointer_choice types.now a b second third }
{
    if a.0 == b.0 {
        Some(Choice::Kept(second.type_id))
    } else if compatible(types, a, b) {
        Some(Choice::Composite)
    } else {
        choice_by_void(a, b, second, third)
    }
}

/// The type of `?:`, where a constraint allows its second and third operand.
pub fn choice(types: &[Kind], second: Operand, third: Operand) -> Option<Choice>
    ensures { result ≡ spec.choice_for types.now second third }
{
    let other = class_of(types, third.type_id);
    match class_of(types, second.type_id) {
        Class::Number => match other {
            Class::Number => Some(Choice::Numbers(usual(second.type_id, third.type_id))),
            Class::Pointer(_) if second.null => Some(Choice::LeftNull),
            Class::Pointer(_) | Class::Struct | Class::Void | Class::Other => None,
        },
        Class::Pointer(a) => match other {
            Class::Number if third.null => Some(Choice::RightNull),
            Class::Pointer(b) => pointer_choice(types, a, b, second, third),
            Class::Number | Class::Struct | Class::Void | Class::Other => None,
        },
        Class::Struct => match other {
            Class::Struct if second.type_id.0 == third.type_id.0 => Some(Choice::Kept(
                second.type_id,
            )),
            Class::Number | Class::Pointer(_) | Class::Struct | Class::Void | Class::Other => None,
        },
        Class::Void => match other {
            Class::Void => Some(Choice::Kept(second.type_id)),
            Class::Number | Class::Pointer(_) | Class::Struct | Class::Other => None,
        },
        Class::Other => None,
    }
}
