//! Conversions as if by assignment (C99 6.5.16.1), and casts (6.5.4).
ghost use Rattle.std.specs.Prelude.{◌≡◌};
ghost use Rattle.sb_typing.specs.Assignments as spec;

use crate::classes::class_of;
use crate::operands::{CastFault, Class, Conversion, Operand};
use crate::operators::go_together;
use sb_core::{Kind, TypeId};

/// What becomes of a number in another number type.
fn number_in(to: TypeId, from: TypeId) -> Conversion
    ensures { result ≡ spec.number_in to from }
{
    if to.0 == from.0 {
        Conversion::Kept
    } else {
        Conversion::Converted
    }
}

/// What becomes of a value that is assigned to an object of a type, as an argument, an initialiser or a result too,
/// where a constraint allows it.
pub fn assignment(types: &[Kind], to: TypeId, from: Operand) -> Option<Conversion>
    ensures { result ≡ spec.assignment types.now to from }
{
    let given = class_of(types, from.type_id);
    match class_of(types, to) {
        Class::Number => match given {
            Class::Number => Some(number_in(to, from.type_id)),
            Class::Pointer(_) if to.0 == 1 => Some(Conversion::Truth),
            Class::Pointer(_) | Class::Struct | Class::Void | Class::Other => None,
        },
        Class::Pointer(a) => match given {
            Class::Number if from.null => Some(Conversion::Null),
            Class::Pointer(b) if go_together(types, a, b) => Some(Conversion::Kept),
            Class::Number | Class::Pointer(_) | Class::Struct | Class::Void | Class::Other => None,
        },
        Class::Struct => match given {
            Class::Struct if to.0 == from.type_id.0 => Some(Conversion::Kept),
            Class::Number | Class::Pointer(_) | Class::Struct | Class::Void | Class::Other => None,
        },
        Class::Void | Class::Other => None,
    }
}

/// What becomes of a number that is cast to a pointer type.
fn number_cast(from: Operand) -> Result<Conversion, CastFault>
    ensures { result ≡ spec.number_cast from }
{
    if from.null {
        Ok(Conversion::Null)
    } else {
        Err(CastFault::PointerAndNumber)
    }
}

/// What becomes of a pointer to `b` that is cast to one to `a`.
fn pointer_cast(types: &[Kind], a: TypeId, b: TypeId) -> Result<Conversion, CastFault>
    ensures { result ≡ spec.pointer_cast types.now a b }
{
    if go_together(types, a, b) {
        Ok(Conversion::Kept)
    } else {
        Err(CastFault::Pointers)
    }
}

/// What becomes of a value that is cast to a type, or why it is not cast.
pub fn cast(types: &[Kind], to: TypeId, from: Operand) -> Result<Conversion, CastFault>
    ensures { result ≡ spec.cast types.now to from }
{
    let given = class_of(types, from.type_id);
    match class_of(types, to) {
        Class::Void => Ok(Conversion::Dropped),
        Class::Number => match given {
            Class::Number => Ok(number_in(to, from.type_id)),
            Class::Pointer(_) => Err(CastFault::PointerAndNumber),
            Class::Struct | Class::Void | Class::Other => Err(CastFault::Differs),
        },
        Class::Pointer(a) => match given {
            Class::Number => number_cast(from),
            Class::Pointer(b) => pointer_cast(types, a, b),
            Class::Struct | Class::Void | Class::Other => Err(CastFault::Differs),
        },
        Class::Struct | Class::Other => Err(CastFault::Differs),
    }
}
