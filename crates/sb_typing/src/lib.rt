//! What types make of an expression (C99 6.3 to 6.6): conversions, types of constants and their values, operands of
//! operators, compatible types, conversions as if by assignment and casts.
#![tactic(auto)]

mod assignments;
mod choices;
mod classes;
mod constants;
mod folding;
mod meaning;
mod numbers;
mod operands;
mod operators;
mod values;

pub use assignments::{assignment, cast};
pub use choices::choice;
pub use classes::{class_of, compatible, is_complete, is_scalar, operand};
pub use constants::{Constant, Spelling, constant_of};
pub use folding::constant_value;
pub use meaning::{laws, type_laws};
pub use numbers::{bits_of, is_number, is_signed, promoted, usual};
pub use operands::{CastFault, Choice, Class, Comparison, Conversion, Joint, Operand};
pub use operators::{comparison, joint, unary_type};
pub use values::converted;
