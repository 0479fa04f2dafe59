//! Which symbols of the facts of a picture are dead: those that occur in no value, region or cell.
ghost use Rattle.std.specs.Prelude.{◌≡◌, [], ◌≤◌, length, IfOk, IfSome, OnOk};
ghost use Rattle.std.specs.List.{filter, list_any};
ghost use Rattle.sb_term.specs.Refutes.{with_symbol, with_symbols, with_rows};
ghost use Rattle.sb_picture.specs.Tidying.{occurs_in, in_value, in_island, in_region, in_cell, is_live, is_dead, dead_symbols, put_at};

use crate::picture::{Cell, Island, Picture, Region, Value};
use sb_term::{Entry, Row, Term};
use std::alloc::{AllocError, Global};

pub(crate) fn occurs_in(symbol: u64, term: &Term) -> bool
    ensures { result ≡ occurs_in symbol term.now }
{
    term.entries().iter().any(|entry| entry.symbol == symbol)
}

fn in_value(symbol: u64, value: &Value) -> bool
    ensures { result ≡ in_value symbol value.now }
{
    match value {
        Value::Number(term) => occurs_in(symbol, term),
        Value::Pointer { region: _, offset } => occurs_in(symbol, offset),
        Value::Unknown => false,
    }
}

fn in_island(symbol: u64, island: &Island) -> bool
    ensures { result ≡ in_island symbol island.now }
{
    occurs_in(symbol, &island.start) || occurs_in(symbol, &island.end)
}

fn in_islands(symbol: u64, islands: &[Island]) -> bool
    ensures { result ≡ list_any (in_island symbol) islands.now }
{
    islands.iter().any(|island| in_island(symbol, island))
}

fn in_region(symbol: u64, region: &Region) -> bool
    ensures { result ≡ in_region symbol region.now }
{
    occurs_in(symbol, &region.presence)
        || occurs_in(symbol, &region.extent)
        || occurs_in(symbol, &region.written)
        || in_islands(symbol, region.islands.as_slice())
}

fn in_cell(symbol: u64, cell: &Cell) -> bool
    ensures { result ≡ in_cell symbol cell.now }
{
    occurs_in(symbol, &cell.offset) || occurs_in(symbol, &cell.value)
}

fn in_values(symbol: u64, values: &[Value]) -> bool
    ensures { result ≡ list_any (in_value symbol) values.now }
{
    values.iter().any(|value| in_value(symbol, value))
}

fn in_regions(symbol: u64, regions: &[Region]) -> bool
    ensures { result ≡ list_any (in_region symbol) regions.now }
{
    regions.iter().any(|region| in_region(symbol, region))
}

fn in_cells(symbol: u64, cells: &[Cell]) -> bool
    ensures { result ≡ list_any (in_cell symbol) cells.now }
{
    cells.iter().any(|cell| in_cell(symbol, cell))
}

/// Whether a symbol occurs in a value, a region or a cell.
fn is_live(picture: &Picture, symbol: u64) -> bool
    ensures { result ≡ is_live picture.now symbol }
{
    in_values(symbol, picture.values.as_slice())
        || in_regions(symbol, picture.regions.as_slice())
        || in_cells(symbol, picture.cells.as_slice())
}

/// Where a symbol goes among others in rising number, or none where it stands.
fn place_of(symbols: &[u64], symbol: u64) -> Option<usize>
    ensures place { put_at symbol symbols.now result ≡ with_symbol symbol symbols.now }
    ensures within { IfSome result (λ at. at ≤ length symbols.now) }
{
    for (at, other) in symbols.iter().enumerate() {
        if symbol < *other {
            return Some(at);
        }
        if symbol == *other {
            return None;
        }
    }
    Some(symbols.len())
}

fn add_symbol(symbols: &mut Vec<u64>, symbol: u64) -> Result<(), AllocError>
    ensures { OnOk result (symbols.new.items ≡ with_symbol symbol symbols.old.items) }
{
    if let Some(at) = place_of(symbols.as_slice(), symbol) {
        symbols.insert(at, symbol)?;
    }
    Ok(())
}

fn add_symbols(symbols: &mut Vec<u64>, entries: &[Entry]) -> Result<(), AllocError>
    ensures { OnOk result (symbols.new.items ≡ with_symbols entries.now symbols.old.items) }
{
    for entry in entries {
        add_symbol(symbols, entry.symbol)?;
    }
    Ok(())
}

/// The symbols of rows, in rising number.
fn symbols_of(alloc: Global, rows: &[Row]) -> Result<Vec<u64>, AllocError>
    ensures { IfOk result (λ symbols. symbols.items ≡ with_rows rows.now []) }
{
    let mut symbols = Vec::new(alloc);
    for row in rows {
        add_symbols(&mut symbols, row.term.entries())?;
    }
    Ok(symbols)
}

fn dead_among(alloc: Global, picture: &Picture, symbols: &[u64]) -> Result<Vec<u64>, AllocError>
    ensures { IfOk result (λ dead. dead.items ≡ filter (is_dead picture.now) symbols.now) }
{
    let mut dead = Vec::new(alloc);
    for symbol in symbols {
        if !is_live(picture, *symbol) {
            dead.push(*symbol)?;
        }
    }
    Ok(dead)
}

/// The symbols of the facts that are live nowhere, in rising number.
pub(crate) fn dead_symbols(alloc: Global, picture: &Picture) -> Result<Vec<u64>, AllocError>
    ensures { IfOk result (λ dead. dead.items ≡ dead_symbols picture.now) }
{
    let symbols = symbols_of(alloc, picture.facts.as_slice())?;
    dead_among(alloc, picture, symbols.as_slice())
}
