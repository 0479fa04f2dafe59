ghost use Rattle.std.specs.Prelude.{◌≡◌, ◌*◌, ◌==◌, not, pos, [], ◌∷◌, int_lt, filter, count_by, IfOk};
ghost use Rattle.sb_term.specs.Elimination.{product as product_in, cheapest as cheapest_of, without as without_symbol, is_positive as is_positive_in, is_negative as is_negative_in};

use crate::terms::coefficient;
use sb_term::Numbered;
use std::alloc::{AllocError, Global};

fn positives(symbol: u64, rows: &[Numbered]) -> usize
    ensures { result ≡ count_by (is_positive_in symbol) rows.now }
{
    rows.iter()
        .filter(|row| coefficient(symbol, row) > 0)
        .count()
}

fn negatives(symbol: u64, rows: &[Numbered]) -> usize
    ensures { result ≡ count_by (is_negative_in symbol) rows.now }
{
    rows.iter()
        .filter(|row| coefficient(symbol, row) < 0)
        .count()
}

/// How many rows an elimination of `symbol` forms.
fn product(symbol: u64, rows: &[Numbered]) -> u128
    ensures { result ≡ product_in symbol rows.now }
{
    positives(symbol, rows) as u128 * negatives(symbol, rows) as u128
}

/// The first symbol with the least product among `first` and `others`.
pub fn cheapest(rows: &[Numbered], first: u64, others: &[u64]) -> u64
    ensures { result ≡ cheapest_of rows.now first others.now }
{
    let mut best = first;
    for symbol in others {
        if product(*symbol, rows) < product(best, rows) {
            best = *symbol;
        }
    }
    best
}

/// The symbols other than `symbol`.
pub fn without(alloc: Global, symbol: u64, symbols: &[u64]) -> Result<Vec<u64>, AllocError>
    ensures { IfOk result (λ v. v.items ≡ without_symbol symbol symbols.now) }
{
    symbols
        .iter()
        .copied()
        .filter(|other| *other != symbol)
        .collect(alloc)
}
