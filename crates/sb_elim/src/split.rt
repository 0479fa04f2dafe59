ghost use Rattle.std.specs.Prelude.{◌≡◌, [], ◌∷◌, ◌++◌, filter, pos, int_lt, IfOk, OnOk};
ghost use Rattle.sb_term.specs.Elimination.{aside_for, is_without, is_positive as is_positive_in, is_negative as is_negative_in};

use crate::terms::coefficient;
use sb_term::{Aside, Numbered};
use sqlite_items::Items;
use std::alloc::{AllocError, Global};

/// Rows by the sign of a symbol's coefficient.
#[derive(Drop)]
struct Sides {
    positive: Vec<Numbered>,
    negative: Vec<Numbered>,
    without: Vec<Numbered>,
}

/// Adds a row to its side.
fn add(sides: &mut Sides, symbol: u64, row: Numbered) -> Result<(), AllocError>
    ensures positive { OnOk result
        (sides.new.positive.items ≡ sides.old.positive.items
        ++ filter (is_positive_in symbol) (row ∷ [])) }
    ensures negative { OnOk result
        (sides.new.negative.items ≡ sides.old.negative.items
        ++ filter (is_negative_in symbol) (row ∷ [])) }
    ensures without { OnOk result
        (sides.new.without.items ≡ sides.old.without.items
        ++ filter (is_without symbol) (row ∷ [])) }
{
    let coefficient = coefficient(symbol, &row);
    if coefficient > 0 {
        sides.positive.push(row)?;
    } else if coefficient < 0 {
        sides.negative.push(row)?;
    } else {
        sides.without.push(row)?;
    }
    Ok(())
}

/// The rows set aside for a symbol, and those without it.
pub fn split(
    alloc: Global,
    symbol: u64,
    rows: Vec<Numbered>,
) -> Result<(Aside, Vec<Numbered>), AllocError>
    ensures aside { IfOk result (λ both. both.0 ≡ aside_for symbol rows.items) }
    ensures without { IfOk result (λ both. both.1.items ≡ filter (is_without symbol) rows.items) }
{
    let mut sides = Sides {
        positive: Vec::new(alloc),
        negative: Vec::new(alloc),
        without: Vec::new(alloc),
    };
    for row in rows {
        add(&mut sides, symbol, row)?;
    }
    let aside = Aside {
        symbol,
        positive: Items::from_vec(sides.positive),
        negative: Items::from_vec(sides.negative),
    };
    Ok((aside, sides.without))
}
