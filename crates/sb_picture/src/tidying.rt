//! After each statement, symbols that occur in facts alone are eliminated where that makes no more rows.
ghost use Rattle.std.specs.Prelude.{◌≡◌, true, ◌<◌, ◌^◌, ◌/◌, pos, length, map, unsigned_abs, IfOk, IfSome, OnOk};
ghost use Rattle.std.specs.List.{filter};
ghost use Rattle.sb_term.specs.Linear.{combined, formed, coefficient_of};
ghost use Rattle.sb_picture.specs.Tidying.{occurs_in, dead_symbols, is_above, is_below, is_without, cancelled_by, cancelled, placed_row, placed, placed_below, placed_all, eliminated, is_cheap, tidied_by, tidied_all, names_none, kept_facts, tidied, tightened, placed_at};

use crate::copied::Copied;
use crate::picture::Picture;
use crate::symbols::{dead_symbols, occurs_in};
use crate::terms::{has_symbol, same_entries};
use crate::tidied::Tidied;
use sb_term::{Row, Sym, Term, TermFault, common_divisor};
use sqlite_items::Items;
use std::alloc::{AllocError, Global};

/// How many dead symbols stay at most.
const MOST: usize = 256;

fn is_above(symbol: u64, row: &Row) -> bool
    ensures { result ≡ is_above symbol row.now }
{
    0 < row.term.coefficient(Sym(symbol))
}

fn is_below(symbol: u64, row: &Row) -> bool
    ensures { result ≡ is_below symbol row.now }
{
    row.term.coefficient(Sym(symbol)) < 0
}

fn is_without(symbol: u64, row: &Row) -> bool
    ensures { result ≡ is_without symbol row.now }
{
    !is_above(symbol, row) && !is_below(symbol, row)
}

fn count_above(symbol: u64, facts: &[Row]) -> usize
    ensures { result ≡ length (filter (is_above symbol) facts.now) }
{
    facts.iter().filter(|fact| is_above(symbol, fact)).count()
}

fn count_below(symbol: u64, facts: &[Row]) -> usize
    ensures { result ≡ length (filter (is_below symbol) facts.now) }
{
    facts.iter().filter(|fact| is_below(symbol, fact)).count()
}

/// Whether the elimination of a symbol makes no more rows.
fn is_cheap(symbol: u64, facts: &[Row]) -> bool
    ensures { result ≡ is_cheap symbol facts.now }
{
    let above = count_above(symbol, facts) as u128;
    let below = count_below(symbol, facts) as u128;
    above * below <= above + below
}

/// The absolute value of a symbol's coefficient.
fn size_of(symbol: u64, row: &Row) -> u128
    ensures value { result ≡ unsigned_abs (coefficient_of symbol row.now.term.entries) }
    ensures narrow { result < 2 ^ 40 }
{
    row.term.coefficient(Sym(symbol)).unsigned_abs()
}

fn quotient(size: u128, divisor: u128) -> u64
    requires positive { 0 < divisor }
    requires narrow { size < 2 ^ 40 }
    ensures value { result ≡ size / divisor }
    ensures narrow { result < 2 ^ 40 }
{
    (size / divisor) as u64
}

fn combination(
    alloc: Global,
    a: u64,
    first: &Term,
    b: u64,
    second: &Term,
) -> Result<Option<Term>, AllocError>
    requires a { a < 2 ^ 40 }
    requires b { b < 2 ^ 40 }
    ensures { IfOk result
        (λ t. t ≡ formed (combined (pos a) first.now (pos b) second.now (pos 0))) }
{
    match first.combine(alloc, a, second, b) {
        Ok(term) => Ok(Some(term)),
        Err(TermFault::TooWide) => Ok(None),
        Err(TermFault::Memory) => Err(AllocError),
    }
}

fn cancelled_by(
    alloc: Global,
    a: u128,
    b: u128,
    above: &Term,
    below: &Term,
) -> Result<Option<Term>, AllocError>
    requires positive { 0 < b }
    requires a { a < 2 ^ 40 }
    requires b { b < 2 ^ 40 }
    ensures { IfOk result (λ t. t ≡ formed (cancelled_by a b above.now below.now)) }
{
    let divisor = common_divisor(a, b);
    let times_above = quotient(b, divisor);
    let times_below = quotient(a, divisor);
    combination(alloc, times_above, above, times_below, below)
}

/// One row in which a symbol cancels, or none where it passes the limits.
fn cancelled_term(
    alloc: Global,
    symbol: u64,
    above: &Row,
    below: &Row,
) -> Result<Option<Term>, AllocError>
    requires { is_below symbol below.now ≡ true }
    ensures { IfOk result (λ t. t ≡ formed (cancelled symbol above.now below.now)) }
{
    let a = size_of(symbol, above);
    let b = size_of(symbol, below);
    cancelled_by(alloc, a, b, &above.term, &below.term)
}

/// A lesser constant for the row at an index.
fn tighten(rows: &mut Items<Row>, at: usize, term: Term)
    requires { at < length rows.old }
    ensures { rows.new ≡ tightened rows.old at term }
{
    if term.rest() < rows.as_slice()[at].term.rest() {
        rows.set(at, Row { term });
    }
}

/// Where a row with the coefficients of a term stands, if one does.
fn spot_of(rows: &[Row], term: &Term) -> Option<usize>
    ensures spot { placed_at term.now rows.now result ≡ placed_row rows.now term.now }
    ensures within { IfSome result (λ at. at < length rows.now) }
{
    for (at, row) in rows.iter().enumerate() {
        if same_entries(row.term.entries(), term.entries()) {
            return Some(at);
        }
    }
    None
}

/// Places a row: of two with equal coefficients the one with the lesser constant stays in that position.
fn place_row(rows: &mut Items<Row>, term: Term) -> Result<(), AllocError>
    ensures { OnOk result (rows.new ≡ placed_row rows.old term) }
{
    match spot_of(rows.as_slice(), &term) {
        Some(at) => tighten(rows, at, term),
        None => rows.push(Row { term })?,
    }
    Ok(())
}

fn place(rows: &mut Items<Row>, term: Option<Term>) -> Result<(), AllocError>
    ensures { OnOk result (rows.new ≡ placed rows.old term) }
{
    if let Some(term) = term {
        if has_symbol(&term) {
            place_row(rows, term)?;
        }
    }
    Ok(())
}

/// Places the rows in which a symbol cancels, of one row and each fact where its coefficient is below 0.
fn place_below(
    alloc: Global,
    symbol: u64,
    above: &Row,
    facts: &[Row],
    rows: &mut Items<Row>,
) -> Result<(), AllocError>
    ensures { OnOk result
        (rows.new ≡ placed_below symbol above.now (filter (is_below symbol) facts.now) rows.old) }
{
    for below in facts {
        if is_below(symbol, below) {
            let row = cancelled_term(alloc, symbol, above, below)?;
            place(rows, row)?;
        }
    }
    Ok(())
}

fn place_all(
    alloc: Global,
    symbol: u64,
    facts: &[Row],
    rows: &mut Items<Row>,
) -> Result<(), AllocError>
    ensures { OnOk result
        (rows.new ≡ placed_all symbol (filter (is_above symbol) facts.now)
        (filter (is_below symbol) facts.now) rows.old) }
{
    for above in facts {
        if is_above(symbol, above) {
            place_below(alloc, symbol, above, facts, rows)?;
        }
    }
    Ok(())
}

fn without(alloc: Global, symbol: u64, facts: &[Row]) -> Result<Items<Row>, AllocError>
    ensures { IfOk result (λ rows. rows ≡ filter (is_without symbol) facts.now) }
{
    let mut rows = Items::new(alloc);
    for fact in facts {
        if is_without(symbol, fact) {
            let copy = fact.copy(alloc)?;
            rows.push(copy)?;
        }
    }
    Ok(rows)
}

fn facts_without_symbol(alloc: Global, symbol: u64, facts: &[Row]) -> Result<Items<Row>, AllocError>
    ensures { IfOk result (λ rows. rows ≡ eliminated symbol facts.now) }
{
    let mut rows = without(alloc, symbol, facts)?;
    place_all(alloc, symbol, facts, &mut rows)?;
    Ok(rows)
}

fn tidy_symbol(alloc: Global, symbol: u64, tidied: &mut Tidied) -> Result<(), AllocError>
    ensures { OnOk result (tidied.new ≡ tidied_by symbol tidied.old) }
{
    if is_cheap(symbol, tidied.facts.as_slice()) {
        let facts = facts_without_symbol(alloc, symbol, tidied.facts.as_slice())?;
        tidied.facts = facts;
    } else {
        tidied.stay.push(symbol)?;
    }
    Ok(())
}

fn tidy_symbols(alloc: Global, symbols: &[u64], tidied: &mut Tidied) -> Result<(), AllocError>
    ensures { OnOk result (tidied.new ≡ tidied_all symbols.now tidied.old) }
{
    for symbol in symbols {
        tidy_symbol(alloc, *symbol, tidied)?;
    }
    Ok(())
}

fn names_none(symbols: &[u64], fact: &Row) -> bool
    ensures { result ≡ names_none symbols.now fact.now }
{
    for symbol in symbols {
        if occurs_in(*symbol, &fact.term) {
            return false;
        }
    }
    true
}

fn free_of(alloc: Global, symbols: &[u64], facts: &[Row]) -> Result<Items<Row>, AllocError>
    ensures { IfOk result (λ rows. rows ≡ filter (names_none symbols.now) facts.now) }
{
    let mut rows = Items::new(alloc);
    for fact in facts {
        if names_none(symbols, fact) {
            let copy = fact.copy(alloc)?;
            rows.push(copy)?;
        }
    }
    Ok(rows)
}

/// The facts that are kept: of too many dead symbols that stay, the smallest go with their facts.
fn kept_facts(alloc: Global, tidied: Tidied) -> Result<Items<Row>, AllocError>
    ensures { IfOk result (λ facts. facts ≡ kept_facts tidied) }
{
    let count = tidied.stay.len();
    if count <= MOST {
        return Ok(tidied.facts);
    }
    let stay = tidied.stay.as_slice();
    free_of(alloc, &stay[..count - MOST], tidied.facts.as_slice())
}

/// Eliminates the symbols that occur in facts alone, where that makes no more rows.
fn tidy(alloc: Global, picture: Picture) -> Result<Picture, AllocError>
    ensures { IfOk result (λ after. after ≡ tidied picture) }
{
    let dead = dead_symbols(alloc, &picture)?;
    let Picture {
        values,
        facts,
        labels,
        regions,
        cells,
    } = picture;
    let mut tidied = Tidied {
        facts,
        stay: Items::new(alloc),
    };
    tidy_symbols(alloc, dead.as_slice(), &mut tidied)?;
    let facts = kept_facts(alloc, tidied)?;
    Ok(Picture {
        values,
        facts,
        labels,
        regions,
        cells,
    })
}

/// All pictures, tidied.
pub fn all_tidied(alloc: Global, pictures: &[Picture]) -> Result<Items<Picture>, AllocError>
    ensures { IfOk result (λ all. all ≡ map tidied pictures.now) }
{
    let mut all = Items::new(alloc);
    for picture in pictures {
        let copy = picture.copied(alloc)?;
        let after = tidy(alloc, copy)?;
        all.push(after)?;
    }
    Ok(all)
}
