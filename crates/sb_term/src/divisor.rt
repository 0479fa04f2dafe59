ghost use Rattle.std.specs.Prelude.{◌≡◌, ◌<◌, ◌≤◌, ◌/◌};
ghost use Rattle.sb_term.specs.Ratio.{gcd};

/// The greatest common divisor, by Euclid's algorithm; that of 0 and 0 is 0.
pub fn common_divisor(a: u128, b: u128) -> u128
    ensures { result ≡ gcd a b }
{
    if b == 0 { a } else { common_divisor(b, a % b) }
}

/// Both numbers without their common factors.
pub fn cancelled(a: u128, b: u128) -> (u128, u128)
    requires { 0 < b }
    ensures left { result.0 ≡ a / gcd a b }
    ensures right { result.1 ≡ b / gcd a b }
    ensures some { 0 < result.1 }
    ensures left_fits { result.0 ≤ a }
    ensures right_fits { result.1 ≤ b }
{
    let divisor = common_divisor(a, b);
    (a / divisor, b / divisor)
}
