ghost use Rattle.std.specs.Prelude.{◌≡◌, ◌==◌, not, filter, map, true, [], ◌∷◌, ◌++◌, pos, negsuc, ◌*ℤ◌, None, Some, reverse, option_and_then, option_map, unwrap_or, IfOk};
ghost use Rattle.sb_term.specs.Linear.{is_narrow, are_narrow};
ghost use Rattle.sb_term.specs.Ratio.{ratio_add, ratio_max, ratio_min};
ghost use Rattle.sb_term.specs.Refutes.{value_in as value_in_list, product_of as product_in, products_onto as products_added, value_under as term_value};
ghost use Rattle.sb_term.specs.Bounds.{zero_ratio, dropping, bound_by as bound_in, greatest_bound as greatest_of, least_bound as least_of, value_between as value_in_between, values as all_values, in_order as all_in_order};
ghost use Rattle.sb_elim.specs.Outcomes.{plus_other as other_added};

use crate::terms::coefficient;
use sb_term::{Aside, Entry, Numbered, Rat, Sym, Term};
use std::alloc::{AllocError, Global};

pub fn zero() -> Rat
    ensures { result ≡ zero_ratio }
{
    Rat::new(0, 1).unwrap()
}

fn value_in(known: &[(Sym, Rat)], symbol: u64) -> Option<Rat>
    ensures { result ≡ value_in_list known.now symbol }
{
    known.iter().find(|x| x.0.0 == symbol).map(|x| x.1)
}

fn product_of(known: &[(Sym, Rat)], entry: Entry) -> Option<Rat>
    requires { is_narrow entry.coefficient ≡ true }
    ensures { result ≡ product_in known.now entry }
{
    value_in(known, entry.symbol)?.times(entry.coefficient)
}

fn plus_product(known: &[(Sym, Rat)], sum: Rat, entry: Entry) -> Option<Rat>
    requires { is_narrow entry.coefficient ≡ true }
    ensures { result ≡ option_and_then (ratio_add sum) (product_in known.now entry) }
{
    sum.add(product_of(known, entry)?)
}

/// A rational plus the products of all entries.
fn products_onto(known: &[(Sym, Rat)], first: Rat, entries: &[Entry]) -> Option<Rat>
    requires { are_narrow entries.now ≡ true }
    ensures { result ≡ products_added known.now first entries.now }
{
    let mut sum = first;
    for entry in entries {
        sum = plus_product(known, sum, *entry)?;
    }
    Some(sum)
}

/// The value of a term.
pub fn value_under(known: &[(Sym, Rat)], term: &Term) -> Option<Rat>
    ensures { result ≡ term_value known.now term.now }
{
    products_onto(known, Rat::new(term.rest(), 1)?, term.entries())
}

/// A rational plus the product of an entry, unless it is that of `symbol`.
fn plus_other(known: &[(Sym, Rat)], symbol: u64, sum: Rat, entry: Entry) -> Option<Rat>
    requires { is_narrow entry.coefficient ≡ true }
    ensures { result ≡ other_added known.now symbol sum entry }
{
    if entry.symbol == symbol {
        Some(sum)
    } else {
        plus_product(known, sum, entry)
    }
}

/// A rational plus the products of all entries but that of `symbol`.
fn others_onto(known: &[(Sym, Rat)], symbol: u64, first: Rat, entries: &[Entry]) -> Option<Rat>
    requires { are_narrow entries.now ≡ true }
    ensures { result ≡ products_added known.now first
        (filter (λ e. not (e.symbol == symbol)) entries.now) }
{
    let mut sum = first;
    for entry in entries {
        sum = plus_other(known, symbol, sum, *entry)?;
    }
    Some(sum)
}

/// The value of a term without `symbol`.
fn rest_under(known: &[(Sym, Rat)], symbol: u64, term: &Term) -> Option<Rat>
    ensures { result ≡ term_value known.now (dropping symbol term.now) }
{
    others_onto(known, symbol, Rat::new(term.rest(), 1)?, term.entries())
}

/// The bound that a row sets to `symbol`.
fn bound_by(known: &[(Sym, Rat)], symbol: u64, row: &Numbered) -> Option<Rat>
    ensures { result ≡ bound_in symbol known.now row.now }
{
    rest_under(known, symbol, &row.term)?.over(opposite(coefficient(symbol, row)))
}

fn opposite(coefficient: i128) -> i128
    requires { is_narrow coefficient ≡ true }
    ensures value { result ≡ negsuc 0 *ℤ coefficient }
    ensures narrow { is_narrow result ≡ true }
{
    -1 * coefficient
}

fn greater(left: Rat, right: Rat) -> Rat
    ensures { result ≡ ratio_max left right }
{
    if left.at_most(right) { right } else { left }
}

fn lesser(left: Rat, right: Rat) -> Rat
    ensures { result ≡ ratio_min left right }
{
    if left.at_most(right) { left } else { right }
}

/// The greatest of a bound and those of rows.
fn greatest_bound(known: &[(Sym, Rat)], symbol: u64, rows: &[Numbered], first: Rat) -> Option<Rat>
    ensures { result ≡ greatest_of symbol known.now rows.now first }
{
    let mut best = first;
    for row in rows {
        best = greater(best, bound_by(known, symbol, row)?);
    }
    Some(best)
}

/// The least of a bound and those of rows.
fn least_bound(known: &[(Sym, Rat)], symbol: u64, rows: &[Numbered], first: Rat) -> Option<Rat>
    ensures { result ≡ least_of symbol known.now rows.now first }
{
    let mut best = first;
    for row in rows {
        best = lesser(best, bound_by(known, symbol, row)?);
    }
    Some(best)
}

/// The greatest lower bound of a symbol, else the least upper bound, else 0; none where a partial result passes a limit.
fn value_between(
    known: &[(Sym, Rat)],
    symbol: u64,
    positive: &[Numbered],
    negative: &[Numbered],
) -> Option<Rat>
    ensures { result ≡ value_in_between symbol known.now positive.now negative.now }
{
    match positive {
        [first, others @ ..] => greatest_bound(
            known,
            symbol,
            others,
            bound_by(known, symbol, first)?,
        ),
        [] => value_below(known, symbol, negative),
    }
}

fn value_below(known: &[(Sym, Rat)], symbol: u64, negative: &[Numbered]) -> Option<Rat>
    ensures { result ≡ value_in_between symbol known.now [] negative.now }
{
    match negative {
        [first, others @ ..] => least_bound(known, symbol, others, bound_by(known, symbol, first)?),
        [] => Some(zero()),
    }
}

/// Values for the symbols of rows set aside, the last set aside first.
pub fn values(alloc: Global, asides: Vec<Aside>) -> Result<Option<Vec<(Sym, Rat)>>, AllocError>
    ensures { IfOk result
        (λ o. option_map (λ v. v.items) o ≡ all_values (reverse asides.items) []) }
{
    let mut known = Vec::new(alloc);
    let mut left = asides;
    while let Some(aside) = left.pop() {
        match value_between(
            &known,
            aside.symbol,
            aside.positive.as_slice(),
            aside.negative.as_slice(),
        ) {
            None => return Ok(None),
            Some(value) => known.push((Sym(aside.symbol), value))?,
        }
    }
    Ok(Some(known))
}

fn value_or_zero(known: &[(Sym, Rat)], symbol: u64) -> (Sym, Rat)
    ensures { result ≡ (
      record { 0 = symbol },
      unwrap_or (value_in_list known.now symbol)
          zero_ratio,
    ) }
{
    (Sym(symbol), value_in(known, symbol).unwrap_or(zero()))
}

/// The values of symbols in the order of a list.
pub fn in_order(
    alloc: Global,
    known: &[(Sym, Rat)],
    symbols: &[u64],
) -> Result<Vec<(Sym, Rat)>, AllocError>
    ensures { IfOk result (λ v. v.items ≡ all_in_order known.now symbols.now) }
{
    symbols
        .iter()
        .map(|symbol| value_or_zero(known, *symbol))
        .collect(alloc)
}
