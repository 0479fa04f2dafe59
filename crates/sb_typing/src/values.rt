//! Numbers in another type (C99 6.3.1.2, 6.3.1.3).
ghost use Rattle.std.specs.Prelude.{◌≡◌, ◌≤◌, ◌<◌, ◌^◌, pos, false, true, ◌≤ℤ◌, ◌<ℤ◌};
ghost use Rattle.sb_core.specs.Sorts.{IsWithin};
ghost use Rattle.sb_typing.specs.Numbers.{IsHeld};
ghost use Rattle.sb_typing.specs.Values as spec;

use crate::numbers::{bits_of, is_signed};
use sb_core::TypeId;

/// Two to the power of so many bits.
#[tactic(auto, using(crate::proofs::Powers::power_fits, crate::proofs::Powers::power_some))]
fn power(bits: u32) -> i128
    requires most { bits ≤ 64 }
    ensures gives { result ≡ pos (2 ^ bits) }
    ensures some { pos 0 <ℤ result }
    ensures most { result ≤ℤ pos (2 ^ 64) }
{
    1i128 << bits
}

/// The lowest bits as a number from 0 on.
fn lowest_bits(bits: u32, value: i128) -> i128
    requires most { bits ≤ 64 }
    ensures gives { result ≡ spec.lowest_bits bits value }
    ensures held { IsWithin bits false result }
{
    value.rem_euclid(power(bits))
}

/// These bits in two's complement.
#[tactic(auto, using(crate::proofs::Powers::twice, crate::proofs::Powers::power_some))]
fn with_sign(bits: u32, low: i128) -> i128
    requires some { 0 < bits }
    requires most { bits ≤ 64 }
    requires low { IsWithin bits false low }
    ensures gives { result ≡ spec.with_sign bits low }
    ensures held { IsWithin bits true result }
{
    if low < power(bits - 1) {
        low
    } else {
        low - power(bits)
    }
}

/// What is left of a number in the bits of a type: in two's complement, where the type is signed.
pub(crate) fn wrapped(t: TypeId, value: i128) -> i128
    ensures gives { result ≡ spec.wrapped t value }
    ensures held { IsHeld t result }
{
    let bits = bits_of(t);
    let low = lowest_bits(bits, value);
    if is_signed(t) {
        with_sign(bits, low)
    } else {
        low
    }
}

/// 1 for true, and 0 for false.
pub(crate) fn truth(holds: bool) -> i128
    ensures { result ≡ spec.truth holds }
{
    if holds { 1 } else { 0 }
}

/// A number in another type (6.3.1.2, 6.3.1.3): in `_Bool` it is 0 or 1.
pub fn converted(t: TypeId, value: i128) -> i128
    ensures gives { result ≡ spec.converted t value }
    ensures held { IsHeld t result }
{
    if t.0 == 1 {
        truth(value != 0)
    } else {
        wrapped(t, value)
    }
}
