ghost use Rattle.std.specs.Prelude.{◌≡◌, ◌+ℤ◌, ◌*ℤ◌, [], ◌∷◌, ◌++◌, true, false, IfOk, OnOk, IfSome, IfNone, IsErrOf};
ghost use Rattle.sb_term.specs.Linear.{is_narrow, are_narrow, keep, merged, scaled_entries};
ghost use Rattle.sb_term.specs.Fronts.{IsFront};

use crate::entry::Entry;
use crate::fault::TermFault;
use crate::limits::{narrow, narrow_product, sum};
use smallvec::SmallVec;
use std::alloc::Global;

/// The entries of a term in the making.
pub type Entries = SmallVec<Entry, 4>;

/// The first entry of a merge, and what is left of both lists behind it.
#[derive(Drop)]
struct Front<'a> {
    symbol: u64,
    coefficient: i128,
    xs: &'a [Entry],
    ys: &'a [Entry],
}

/// Puts an entry last, unless its coefficient is zero.
pub fn keep_entry(out: &mut Entries, symbol: u64, coefficient: i128) -> Result<(), TermFault>
    ensures kept { OnOk result (out.new.items ≡ out.old.items ++ keep symbol coefficient []) }
    ensures within { OnOk result (is_narrow coefficient ≡ true) }
    ensures wide { IsErrOf result TermFault.TooWide → is_narrow coefficient ≡ false }
{
    if !narrow(coefficient) {
        return Err(TermFault::TooWide);
    }
    if coefficient != 0 {
        out.push(Entry {
            symbol,
            coefficient,
        })?;
    }
    Ok(())
}

fn sum_of_products(a: i128, x: i128, b: i128, y: i128) -> i128
    requires a { is_narrow a ≡ true }
    requires x { is_narrow x ≡ true }
    requires b { is_narrow b ≡ true }
    requires y { is_narrow y ≡ true }
    ensures { result ≡ (a *ℤ x) +ℤ (b *ℤ y) }
{
    let left = narrow_product(a, x);
    let right = narrow_product(b, y);
    sum(left, right)
}

/// The front of two lists that begin with one symbol.
fn front_of_both<'a>(
    a: i128,
    x: Entry,
    more_xs: &'a [Entry],
    b: i128,
    y: Entry,
    more_ys: &'a [Entry],
) -> Front<'a>
    requires a { is_narrow a ≡ true }
    requires b { is_narrow b ≡ true }
    requires same { x.symbol ≡ y.symbol }
    requires x { is_narrow x.coefficient ≡ true }
    requires y { is_narrow y.coefficient ≡ true }
    ensures front { IsFront a b (x ∷ more_xs.now) (y ∷ more_ys.now) result.symbol result.coefficient
        result.xs.now result.ys.now }
    ensures xs { result.xs.now ≡ more_xs.now }
    ensures ys { result.ys.now ≡ more_ys.now }
{
    Front {
        symbol: x.symbol,
        coefficient: sum_of_products(a, x.coefficient, b, y.coefficient),
        xs: more_xs,
        ys: more_ys,
    }
}

fn front_of<'a>(a: i128, xs: &'a [Entry], b: i128, ys: &'a [Entry]) -> Option<Front<'a>>
    requires a { is_narrow a ≡ true }
    requires b { is_narrow b ≡ true }
    requires xs { are_narrow xs.now ≡ true }
    requires ys { are_narrow ys.now ≡ true }
    ensures none { IfNone result (merged a b xs.now ys.now ≡ []) }
    ensures some { IfSome result
        (λ f. IsFront a b xs.now ys.now f.symbol f.coefficient f.xs.now f.ys.now) }
    ensures narrow_xs { IfSome result (λ f. are_narrow f.xs.now ≡ true) }
    ensures narrow_ys { IfSome result (λ f. are_narrow f.ys.now ≡ true) }
{
    match (xs, ys) {
        ([], []) => None,
        ([x, more @ ..], []) => Some(Front {
            symbol: x.symbol,
            coefficient: narrow_product(a, x.coefficient),
            xs: more,
            ys,
        }),
        ([], [y, more @ ..]) => Some(Front {
            symbol: y.symbol,
            coefficient: narrow_product(b, y.coefficient),
            xs,
            ys: more,
        }),
        ([x, more_xs @ ..], [y, more_ys @ ..]) => {
            if x.symbol < y.symbol {
                Some(Front {
                    symbol: x.symbol,
                    coefficient: narrow_product(a, x.coefficient),
                    xs: more_xs,
                    ys,
                })
            } else if y.symbol < x.symbol {
                Some(Front {
                    symbol: y.symbol,
                    coefficient: narrow_product(b, y.coefficient),
                    xs,
                    ys: more_ys,
                })
            } else {
                Some(front_of_both(a, *x, more_xs, b, *y, more_ys))
            }
        }
    }
}

/// `a` times the entries `xs` plus `b` times the entries `ys`, both in rising number.
pub fn merge(
    alloc: Global,
    a: i128,
    xs: &[Entry],
    b: i128,
    ys: &[Entry],
) -> Result<Entries, TermFault>
    requires a { is_narrow a ≡ true }
    requires b { is_narrow b ≡ true }
    requires xs { are_narrow xs.now ≡ true }
    requires ys { are_narrow ys.now ≡ true }
    ensures items { IfOk result (λ v. v.items ≡ merged a b xs.now ys.now) }
    ensures within { OnOk result (are_narrow (merged a b xs.now ys.now) ≡ true) }
    ensures wide { IsErrOf result TermFault.TooWide → are_narrow (merged a b xs.now ys.now)
        ≡ false }
{
    let mut out = SmallVec::new(alloc);
    let mut left = xs;
    let mut right = ys;
    while let Some(front) = front_of(a, left, b, right) {
        keep_entry(&mut out, front.symbol, front.coefficient)?;
        left = front.xs;
        right = front.ys;
    }
    Ok(out)
}

/// The entries `by` times.
pub fn scaled_entries(alloc: Global, by: i128, xs: &[Entry]) -> Result<Entries, TermFault>
    requires { are_narrow xs.now ≡ true }
    ensures items { IfOk result (λ v. v.items ≡ scaled_entries by xs.now) }
    ensures within { OnOk result (are_narrow (scaled_entries by xs.now) ≡ true) }
    ensures wide { IsErrOf result TermFault.TooWide → are_narrow (scaled_entries by xs.now)
        ≡ false }
{
    let mut out = SmallVec::new(alloc);
    for entry in xs {
        scale_entry(&mut out, by, *entry)?;
    }
    Ok(out)
}

/// Puts an entry `by` times last, unless that is zero.
fn scale_entry(out: &mut Entries, by: i128, entry: Entry) -> Result<(), TermFault>
    ensures kept { OnOk result
        (out.new.items ≡ out.old.items ++ keep entry.symbol (by *ℤ entry.coefficient) []) }
    ensures within { OnOk result (is_narrow (by *ℤ entry.coefficient) ≡ true) }
    ensures wide { IsErrOf result TermFault.TooWide → is_narrow (by *ℤ entry.coefficient) ≡ false }
{
    match by.checked_mul(entry.coefficient) {
        Some(product) => keep_entry(out, entry.symbol, product),
        None => Err(TermFault::TooWide),
    }
}
