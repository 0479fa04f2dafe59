//! The number types and how operands of two of them become one (C99 6.3.1.1, 6.3.1.8).
ghost use Rattle.std.specs.Prelude.{◌≡◌};
ghost use Rattle.sb_core.specs.Sorts as core;
ghost use Rattle.sb_typing.specs.Numbers as spec;

use sb_core::TypeId;

/// `int`.
pub(crate) const INT: TypeId = TypeId(7);

/// Whether a type is one of numbers: the types 1 to 12.
pub fn is_number(t: TypeId) -> bool
    ensures { result ≡ core.is_number t }
{
    0 < t.0 && t.0 < 13
}

/// The bits of a number type: 1 for `_Bool`, and a multiple of 8 else.
pub fn bits_of(t: TypeId) -> u32
    ensures { result ≡ spec.bits_of t }
{
    if t.0 < 2 {
        1
    } else if t.0 < 5 {
        8
    } else if t.0 < 7 {
        16
    } else if t.0 < 11 {
        32
    } else {
        64
    }
}

/// Whether a number type is signed, as plain `char` is.
pub fn is_signed(t: TypeId) -> bool
    ensures { result ≡ spec.is_signed t }
{
    t.0 == 2 || t.0 == 3 || t.0 == 5 || t.0 == 7 || t.0 == 9 || t.0 == 11
}

/// The conversion rank (6.3.1.1), from 0 for `_Bool` to 5 for `long long`.
fn rank_of(t: TypeId) -> u32
    ensures { result ≡ spec.rank_of t }
{
    if t.0 < 2 {
        0
    } else if t.0 < 5 {
        1
    } else if t.0 < 7 {
        2
    } else if t.0 < 9 {
        3
    } else if t.0 < 11 {
        4
    } else {
        5
    }
}

/// The unsigned type that corresponds to a signed one.
fn unsigned_of(t: TypeId) -> TypeId
    ensures { result ≡ spec.unsigned_of t }
{
    if t.0 == 2 || t.0 == 3 {
        TypeId(4)
    } else if t.0 == 5 {
        TypeId(6)
    } else if t.0 == 7 {
        TypeId(8)
    } else if t.0 == 9 {
        TypeId(10)
    } else if t.0 == 11 {
        TypeId(12)
    } else {
        t
    }
}

/// Whether a type holds every value of another.
fn holds_all(whole: TypeId, part: TypeId) -> bool
    ensures { result ≡ spec.holds_all whole part }
{
    if is_signed(part) {
        is_signed(whole) && bits_of(part) <= bits_of(whole)
    } else if is_signed(whole) {
        bits_of(part) < bits_of(whole)
    } else {
        bits_of(part) <= bits_of(whole)
    }
}

/// The type after the integer promotions (6.3.1.1).
pub fn promoted(t: TypeId) -> TypeId
    ensures { result ≡ spec.promoted t }
{
    if rank_of(t) <= 3 && holds_all(INT, t) {
        INT
    } else {
        t
    }
}

/// The common type of a signed and an unsigned one.
fn mixed(signed: TypeId, unsigned: TypeId) -> TypeId
    ensures { result ≡ spec.mixed signed unsigned }
{
    if rank_of(signed) <= rank_of(unsigned) {
        unsigned
    } else if holds_all(signed, unsigned) {
        signed
    } else {
        unsigned_of(signed)
    }
}

/// The common type of two that are both signed or both unsigned.
fn greater(t: TypeId, u: TypeId) -> TypeId
    ensures { result ≡ spec.greater t u }
{
    if rank_of(t) < rank_of(u) { u } else { t }
}

/// The common type of two promoted ones.
fn common(t: TypeId, u: TypeId) -> TypeId
    ensures { result ≡ spec.common t u }
{
    if is_signed(t) {
        if is_signed(u) {
            greater(t, u)
        } else {
            mixed(t, u)
        }
    } else if is_signed(u) {
        mixed(u, t)
    } else {
        greater(t, u)
    }
}

/// The common type of two operands by the usual arithmetic conversions (6.3.1.8).
pub fn usual(t: TypeId, u: TypeId) -> TypeId
    ensures { result ≡ spec.usual t u }
{
    common(promoted(t), promoted(u))
}
