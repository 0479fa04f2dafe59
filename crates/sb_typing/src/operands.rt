//! What types make of the operands of an operator.

use sb_core::TypeId;

/// What a type is to the operators (6.2.5).
#[derive(Clone, Copy)]
pub enum Class {
    /// One of the types 1 to 12.
    Number,
    /// A pointer to a type.
    Pointer(TypeId),
    Struct,
    Void,
    /// An array, which is converted to a pointer before (6.3.2.1), or no type of the table.
    Other,
}

/// An operand: its type, and whether it is a null pointer constant (6.3.2.3).
#[derive(Clone, Copy)]
pub struct Operand {
    pub type_id: TypeId,
    pub null: bool,
}

/// What an operator on two operands does (6.5.5 to 6.5.7, 6.5.10 to 6.5.12).
#[derive(Clone, Copy)]
pub enum Joint {
    /// Both operands are converted to this type, which the result has.
    Numbers(TypeId),
    /// The left operand is converted to the first type, which the result has, and the right one to the second.
    Shift(TypeId, TypeId),
    /// The left operand points to elements of this type and is moved by the right one.
    LeftMoved(TypeId),
    /// The right operand points to elements of this type and is moved by the left one.
    RightMoved(TypeId),
    /// How many elements of this type lie between two pointers.
    Distance(TypeId),
}

/// How two operands are compared (6.5.8, 6.5.9). The result is an `int`.
#[derive(Clone, Copy)]
pub enum Comparison {
    /// Both are converted to this type.
    Numbers(TypeId),
    Pointers,
    /// The left operand, a number, is the null pointer.
    LeftNull,
    /// The right operand, a number, is the null pointer.
    RightNull,
}

/// The type of `?:` of its second and third operand (6.5.15).
#[derive(Clone, Copy)]
pub enum Choice {
    /// Both are converted to this type, which the result has.
    Numbers(TypeId),
    /// Both stay as they are, and the result has this type.
    Kept(TypeId),
    /// Both stay as they are, and the result has the composite of their types (6.2.7).
    Composite,
    /// The second operand, a number, is the null pointer, and the result has the type of the third.
    LeftNull,
    /// The third operand, a number, is the null pointer, and the result has the type of the second.
    RightNull,
}

/// What becomes of a value that is assigned or cast (6.3, 6.5.4, 6.5.16.1).
#[derive(Clone, Copy)]
pub enum Conversion {
    /// It stays as it is.
    Kept,
    /// It is converted to the number type.
    Converted,
    /// A pointer becomes 1 where it is not null, and 0 else (6.3.1.2).
    Truth,
    /// A constant 0 becomes the null pointer.
    Null,
    /// There is no value any more.
    Dropped,
}

/// Why a cast is none (6.5.4).
#[derive(Clone, Copy)]
pub enum CastFault {
    /// One of the types has no values that are cast.
    Differs,
    /// From a pointer to one to another type, where neither is `void`: outside the profile.
    Pointers,
    /// Between a pointer and a number: outside the profile.
    PointerAndNumber,
}
