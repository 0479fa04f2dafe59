ghost use Rattle.std.specs.Prelude.{◌≡◌, ◌/◌, ◌^◌, ◌<◌};
ghost use Rattle.sb_term.specs.Ratio.{gcd};
ghost use Rattle.sb_term.specs.Elimination.{size_in};

use crate::terms::coefficient;
use sb_term::{Numbered, cancelled};

/// The absolute value of the coefficient of `symbol`.
pub fn size(symbol: u64, row: &Numbered) -> u64
    ensures value { result ≡ size_in symbol row.now }
    ensures narrow { result < 2 ^ 40 }
{
    coefficient(symbol, row).unsigned_abs() as u64
}

/// Both quotients by the greatest common divisor: that of `b` and that of `a`.
pub fn factors(a: u64, b: u64) -> (u64, u64)
    requires { 0 < b }
    ensures first { result.0 ≡ b / gcd a b }
    ensures second { result.1 ≡ a / gcd a b }
{
    let (left, right) = cancelled(a as u128, b as u128);
    (right as u64, left as u64)
}
