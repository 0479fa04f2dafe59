ghost use Rattle.std.specs.Prelude.{◌≡◌, nat_lt, length, All, IfOk, OnOk};
ghost use Rattle.std.specs.List.{prefix_len};
ghost use Rattle.sb_term.specs.Linear.{IsTerm};
ghost use Rattle.sb_term.specs.Passed.{AreTerms};
ghost use Rattle.sb_term.specs.Refutes.{with_symbol, with_symbols, with_rows, symbols_of as symbols_in};
ghost use Rattle.sb_elim.specs.Outcomes.{stands_in};

use sb_term::{Entry, Query, Row};
use std::alloc::{AllocError, Global};

/// How many of the first symbols are below `symbol`.
fn place_of(symbols: &[u64], symbol: u64) -> usize
    ensures { result ≡ prefix_len (λ s. nat_lt s symbol) symbols.now }
{
    symbols.iter().take_while(|s| **s < symbol).count()
}

fn stands_at(symbols: &[u64], at: usize, symbol: u64) -> bool
    ensures { result ≡ stands_in symbols.now at symbol }
{
    at < symbols.len() && symbols[at] == symbol
}

/// Adds a symbol to others in rising number, each once.
fn add_symbol(symbols: &mut Vec<u64>, symbol: u64) -> Result<(), AllocError>
    ensures { OnOk result (symbols.new.items ≡ with_symbol symbol symbols.old.items) }
{
    let at = place_of(symbols, symbol);
    if stands_at(symbols, at, symbol) {
        return Ok(());
    }
    symbols.insert(at, symbol)?;
    Ok(())
}

fn add_symbols(symbols: &mut Vec<u64>, entries: &[Entry]) -> Result<(), AllocError>
    ensures { OnOk result (symbols.new.items ≡ with_symbols entries.now symbols.old.items) }
{
    for entry in entries {
        add_symbol(symbols, entry.symbol)?;
    }
    Ok(())
}

fn add_rows(symbols: &mut Vec<u64>, rows: &[Row]) -> Result<(), AllocError>
    ensures items { OnOk result (symbols.new.items ≡ with_rows rows.now symbols.old.items) }
    ensures terms { OnOk result (All (λ r. IsTerm r.term) rows.now) }
{
    for row in rows {
        add_symbols(symbols, row.term.entries())?;
    }
    Ok(())
}

/// The symbols of a query in rising number.
pub fn symbols_of(alloc: Global, query: &Query) -> Result<Vec<u64>, AllocError>
    ensures items { IfOk result (λ v. v.items ≡ symbols_in query.now) }
    ensures terms { OnOk result (AreTerms query.now) }
{
    let mut symbols = Vec::new(alloc);
    add_rows(&mut symbols, query.facts.as_slice())?;
    add_symbols(&mut symbols, query.goal.term.entries())?;
    Ok(symbols)
}
