ghost use Rattle.std.specs.Prelude.{◌≡◌, pos, ◌^◌, ◌<◌, ◌*◌, ◌+ℤ◌, ◌*ℤ◌, true, unsigned_abs};
ghost use Rattle.sb_term.specs.Ratio.{Ratio, IsRat, gcd, limited, signed_as, lowest, ratio_add, ratio_mul, ratio_times, ratio_over, ratio_le, ratio_cmp};
ghost use Rattle.sb_term.specs.Linear.{is_narrow};

use crate::divisor::cancelled;
use crate::limits::{narrow_product, short_product, sum};
use std::cmp::Ordering;
use std::marker::Model;

/// A rational in lowest terms: numerator below 2^80 in absolute value, denominator from 1 to 2^40 - 1.
#[derive(Clone, Copy)]
pub struct Rat {
    num: i128,
    den: u64,
}

impl Model for Rat {
    ghost use Rattle.sb_term.specs.Ratio.{Ratio, IsRat};

    ghost Value = { Ratio };

    ghost view = { λ r. record { num = r.num; den = r.den } };

    ghost invariant = { λ r. IsRat (record { num = r.num; den = r.den }) };

    ghost inverse = { λ r. record { num = r.num; den = r.den } };
}

impl Rat {
    /// `num / den`; none where `den` is 0 or the lowest terms pass a limit. Takes no memory.
    pub fn new(num: i128, den: i128) -> Option<Rat>
        ensures { result ≡ lowest num den }
    {
        if den == 0 {
            return None;
        }
        let (top, bottom) = cancelled(num.unsigned_abs(), den.unsigned_abs());
        limited(num, den, top, bottom)
    }

    /// The numerator.
    pub fn numerator(self) -> i128
        ensures value { result ≡ self.num }
        ensures rat { IsRat self }
    {
        self.num
    }

    /// The denominator.
    pub fn denominator(self) -> u64
        ensures value { result ≡ self.den }
        ensures rat { IsRat self }
    {
        self.den
    }

    /// The sum; none where its lowest terms pass a limit. Takes no memory.
    pub fn add(self, other: Rat) -> Option<Rat>
        ensures { result ≡ ratio_add self other }
    {
        sum_of_parts(self.num, self.den, other.num, other.den)
    }

    /// The product; none where its lowest terms pass a limit. Takes no memory.
    pub fn mul(self, other: Rat) -> Option<Rat>
        ensures { result ≡ ratio_mul self other }
    {
        product_of_parts(self.num, self.den, other.num, other.den)
    }

    /// The rational `by` times.
    pub fn times(self, by: i128) -> Option<Rat>
        requires { is_narrow by ≡ true }
        ensures { result ≡ ratio_times by self }
    {
        Rat::new(short_product(by, self.num), self.den as i128)
    }

    /// The rational divided by `by`; none where `by` is 0 or the lowest terms pass a limit.
    pub fn over(self, by: i128) -> Option<Rat>
        requires { is_narrow by ≡ true }
        ensures { result ≡ ratio_over self by }
    {
        Rat::new(self.num, narrow_product(self.den as i128, by))
    }

    /// Whether the rational is at most the other.
    pub fn at_most(self, other: Rat) -> bool
        ensures { result ≡ ratio_le self other }
    {
        at_most_of_parts(self.num, self.den, other.num, other.den)
    }
}

impl PartialEq for Rat {
    ghost use Rattle.std.specs.Ordering.{eq_by_cmp};
    ghost use Rattle.std.specs.Cmp.{partial_equiv_from_equiv, eq_by_cmp_equiv};
    ghost use Rattle.sb_term.specs.Ratio.{ratio_cmp};
    ghost use Rattle.sb_term.specs.Order.{ratio_cmp_total};

    ghost eq = { eq_by_cmp ratio_cmp };

    ghost laws = { partial_equiv_from_equiv (eq_by_cmp_equiv ratio_cmp_total) };

    fn eq(&self, other: &Rat) -> bool {
        self.cmp(other).is_eq()
    }
}

impl Eq for Rat {
    ghost use Rattle.std.specs.Cmp.{eq_by_cmp_equiv};
    ghost use Rattle.sb_term.specs.Order.{ratio_cmp_total};

    ghost laws = { eq_by_cmp_equiv ratio_cmp_total };
}

impl PartialOrd for Rat {
    ghost use Rattle.std.specs.Prelude.{Some, refl};
    ghost use Rattle.std.specs.Cmp.{po};
    ghost use Rattle.sb_term.specs.Ratio.{ratio_cmp};
    ghost use Rattle.sb_term.specs.Order.{ratio_cmp_total};

    ghost partial_cmp = { λ r s. Some (ratio_cmp r s) };

    ghost laws = { po ratio_cmp_total (λ r s. refl) };

    fn partial_cmp(&self, other: &Rat) -> Option<Ordering> {
        Some(self.cmp(other))
    }
}

/// By value.
impl Ord for Rat {
    ghost use Rattle.std.specs.Prelude.{refl};
    ghost use Rattle.sb_term.specs.Ratio.{ratio_cmp};
    ghost use Rattle.sb_term.specs.Order.{ratio_cmp_total};

    ghost cmp = { ratio_cmp };

    ghost total = { ratio_cmp_total };

    ghost matches_partial_cmp = { λ r s. refl };

    ghost matches_eq = { λ r s. refl };

    fn cmp(&self, other: &Rat) -> Ordering {
        cmp_of_parts(self.num, self.den, other.num, other.den)
    }
}

fn signed(z: i128, d: i128, n: u128) -> i128
    requires { n < 2 ^ 80 }
    ensures { result ≡ signed_as z d n }
{
    if (z < 0) == (d < 0) {
        n as i128
    } else {
        -(n as i128)
    }
}

/// A numerator with the sign of `z` times `d` over a denominator, both in lowest terms.
fn limited(z: i128, d: i128, top: u128, bottom: u128) -> Option<Rat>
    requires some { 0 < bottom }
    requires lowest { gcd top bottom ≡ 1 }
    ensures { result ≡ limited (record { num = signed_as z d top; den = bottom }) }
{
    if top >= 1 << 80 || bottom >= 1 << 40 {
        return None;
    }
    Some(Rat {
        num: signed(z, d, top),
        den: bottom as u64,
    })
}

/// The same of a numerator that is given as two factors and may pass 128 bits.
fn limited_product(z: i128, d: i128, x: u128, y: u128, bottom: u128) -> Option<Rat>
    requires some { 0 < bottom }
    requires lowest { gcd (x * y) bottom ≡ 1 }
    ensures { result ≡ limited (record { num = signed_as z d (x * y); den = bottom }) }
{
    match x.checked_mul(y) {
        Some(top) => limited(z, d, top, bottom),
        None => None,
    }
}

fn cross(num: i128, den: u64) -> i128
    requires num { unsigned_abs num < 2 ^ 80 }
    requires den { den < 2 ^ 40 }
    ensures value { result ≡ num *ℤ pos den }
    ensures below { unsigned_abs result < 2 ^ 120 }
{
    num * den as i128
}

fn denominators(den: u64, more_den: u64) -> i128
    requires den { den < 2 ^ 40 }
    requires more_den { more_den < 2 ^ 40 }
    ensures { result ≡ pos (den * more_den) }
{
    den as i128 * more_den as i128
}

fn sum_of_parts(num: i128, den: u64, more: i128, more_den: u64) -> Option<Rat>
    requires left { IsRat (record { num = num; den = den }) }
    requires right { IsRat (record { num = more; den = more_den }) }
    ensures { result ≡ ratio_add (record { num = num; den = den })
        (record { num = more; den = more_den }) }
{
    let left = cross(num, more_den);
    let right = cross(more, den);
    let top = sum(left, right);
    let bottom = denominators(den, more_den);
    Rat::new(top, bottom)
}

/// The factors are cancelled crosswise before they are multiplied.
fn product_of_parts(num: i128, den: u64, more: i128, more_den: u64) -> Option<Rat>
    requires left { IsRat (record { num = num; den = den }) }
    requires right { IsRat (record { num = more; den = more_den }) }
    ensures { result ≡ ratio_mul (record { num = num; den = den })
        (record { num = more; den = more_den }) }
{
    let (x, d) = cancelled(num.unsigned_abs(), more_den as u128);
    let (y, b) = cancelled(more.unsigned_abs(), den as u128);
    limited_product(num, more, x, y, b * d)
}

fn at_most_of_parts(num: i128, den: u64, more: i128, more_den: u64) -> bool
    requires left { IsRat (record { num = num; den = den }) }
    requires right { IsRat (record { num = more; den = more_den }) }
    ensures { result ≡ ratio_le (record { num = num; den = den })
        (record { num = more; den = more_den }) }
{
    let left = cross(num, more_den);
    let right = cross(more, den);
    left <= right
}

fn cmp_of_parts(num: i128, den: u64, more: i128, more_den: u64) -> Ordering
    requires left { IsRat (record { num = num; den = den }) }
    requires right { IsRat (record { num = more; den = more_den }) }
    ensures { result ≡ ratio_cmp (record { num = num; den = den })
        (record { num = more; den = more_den }) }
{
    let left = cross(num, more_den);
    let right = cross(more, den);
    left.cmp(&right)
}
