//! The types of integer constants and character constants (C99 6.4.4.1, 6.4.4.4).
ghost use Rattle.std.specs.Prelude.{◌≡◌};
ghost use Rattle.std.specs.List.{list_any, count_by};
ghost use Rattle.sb_typing.specs.Constants as spec;

use crate::numbers::{INT, bits_of, is_signed};
use crate::values::converted;
use sb_core::TypeId;

/// How an integer constant is written: in decimal or not, with a suffix `u`, and with so many letters `l`.
#[derive(Clone, Copy)]
pub struct Spelling {
    pub decimal: bool,
    pub unsigned: bool,
    pub longs: usize,
}

/// A constant: its value and its type, which holds it.
#[derive(Clone, Copy)]
pub struct Constant {
    pub value: i128,
    pub type_id: TypeId,
}

/// Whether a type holds a number from 0 on.
fn holds(t: TypeId, value: u64) -> bool
    ensures { result ≡ spec.holds t value }
{
    let bits = bits_of(t);
    let width = if is_signed(t) { bits - 1 } else { bits };
    u128::from(value) < 1u128 << width
}

/// Whether the table of 6.4.4.1 has the type for a constant that is written so.
fn may_be(spelling: Spelling, t: TypeId) -> bool
    ensures { result ≡ spec.may_be spelling t }
{
    if is_signed(t) {
        !spelling.unsigned
    } else {
        spelling.unsigned || !spelling.decimal
    }
}

/// The first of some types that may be and that holds the number.
fn first_of_types(spelling: Spelling, value: u64, types: &[TypeId]) -> TypeId
    ensures { result ≡ spec.first_of_types spelling value types.now }
{
    for t in types {
        if may_be(spelling, *t) && holds(*t, value) {
            return *t;
        }
    }
    TypeId(12)
}

/// The type of an integer constant (6.4.4.1).
fn number_type(spelling: Spelling, value: u64) -> TypeId
    ensures { result ≡ spec.number_type spelling value }
{
    let types = [
        TypeId(7),
        TypeId(8),
        TypeId(9),
        TypeId(10),
        TypeId(11),
        TypeId(12),
    ];
    if spelling.longs == 0 {
        first_of_types(spelling, value, &types)
    } else if spelling.longs == 1 {
        first_of_types(spelling, value, &types[2..])
    } else {
        first_of_types(spelling, value, &types[4..])
    }
}

/// Whether an integer constant has a suffix `u` or `U`: no digit is written so.
fn has_u(text: &[u8]) -> bool
    ensures { result ≡ list_any spec.is_u text.now }
{
    text.iter().any(|b| *b == b'u' || *b == b'U')
}

/// How many letters `l` or `L` an integer constant has.
fn count_l(text: &[u8]) -> usize
    ensures { result ≡ count_by spec.is_l text.now }
{
    text.iter().filter(|b| **b == b'l' || **b == b'L').count()
}

/// Whether a text begins with a byte.
fn begins_with(byte: u8, text: &[u8]) -> bool
    ensures { result ≡ spec.begins_with byte text.now }
{
    match text.first() {
        Some(first) => *first == byte,
        None => false,
    }
}

/// How the text of an integer constant is written.
fn spelling_of(text: &[u8]) -> Spelling
    ensures { result ≡ spec.spelling_of text.now }
{
    Spelling {
        decimal: !begins_with(b'0', text),
        unsigned: has_u(text),
        longs: count_l(text),
    }
}

/// The constant of a text that is an integer or a character constant and of its value, which for a negative character
/// is that value plus 2^64.
pub fn constant_of(text: &[u8], value: u64) -> Constant
    ensures { result ≡ spec.constant_of text.now value }
{
    if begins_with(b'\'', text) {
        Constant {
            value: converted(INT, i128::from(value)),
            type_id: INT,
        }
    } else {
        Constant {
            value: i128::from(value),
            type_id: number_type(spelling_of(text), value),
        }
    }
}
