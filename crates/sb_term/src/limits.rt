ghost use Rattle.std.specs.Prelude.{◌≡◌, true, pos, ◌+◌, ◌≤◌, ◌+ℤ◌, ◌*ℤ◌, ◌^◌, ◌<◌, unsigned_abs};
ghost use Rattle.sb_term.specs.Linear.{is_narrow, is_short};

// Each signed operation stands in a function of its own with its value as an equation.

pub fn narrow(coefficient: i128) -> bool
    ensures { result ≡ is_narrow coefficient }
{
    coefficient.unsigned_abs() < 1 << 40
}

pub fn short(constant: i128) -> bool
    ensures { result ≡ is_short constant }
{
    constant.unsigned_abs() < 1 << 80
}

/// A factor times a coefficient.
pub fn narrow_product(factor: i128, coefficient: i128) -> i128
    requires factor { is_narrow factor ≡ true }
    requires coefficient { is_narrow coefficient ≡ true }
    ensures value { result ≡ factor *ℤ coefficient }
    ensures below { unsigned_abs result < 2 ^ 80 }
{
    factor * coefficient
}

/// A factor times a constant.
pub fn short_product(factor: i128, constant: i128) -> i128
    requires factor { is_narrow factor ≡ true }
    requires constant { is_short constant ≡ true }
    ensures value { result ≡ factor *ℤ constant }
    ensures below { unsigned_abs result < 2 ^ 120 }
{
    factor * constant
}

pub fn sum(x: i128, y: i128) -> i128
    requires x { unsigned_abs x < 2 ^ 124 }
    requires y { unsigned_abs y < 2 ^ 124 }
    ensures value { result ≡ x +ℤ y }
    ensures below { unsigned_abs result ≤ unsigned_abs x + unsigned_abs y }
{
    x + y
}
