//! The cells that a store leaves.
ghost use Rattle.std.specs.Prelude.{◌≡◌, Some, IfOk, OnOk};
ghost use Rattle.std.specs.List.{filter};
ghost use Rattle.sb_store.specs.Stores.{is_far, is_apart, with_cell, cells_after};

use sb_picture::terms::{difference, has_symbol};
use sb_picture::{Cell, Copied};
use sb_term::Term;
use sqlite_items::Items;
use std::alloc::{AllocError, Global};

/// Whether a constant shows that four bytes lie apart.
fn is_far(difference: &Option<Term>) -> bool
    ensures { result ≡ is_far difference.now }
{
    match difference {
        Some(difference) => !has_symbol(difference)
            && (4 <= difference.rest() || difference.rest() <= -4),
        None => false,
    }
}

/// Whether a cell stays after a store at an offset of a region.
fn is_apart(alloc: Global, region: usize, offset: &Term, cell: &Cell) -> Result<bool, AllocError>
    ensures { IfOk result (λ apart. apart ≡ is_apart region offset.now cell.now) }
{
    if cell.region != region {
        return Ok(true);
    }
    let difference = difference(alloc, &cell.offset, offset, 0)?;
    Ok(is_far(&difference))
}

pub(crate) fn cells_apart(
    alloc: Global,
    region: usize,
    offset: &Term,
    cells: &[Cell],
) -> Result<Items<Cell>, AllocError>
    ensures { IfOk result (λ left. left ≡ filter (is_apart region offset.now) cells.now) }
{
    let mut left = Items::new(alloc);
    for cell in cells {
        let apart = is_apart(alloc, region, offset, cell)?;
        if apart {
            let copy = cell.copied(alloc)?;
            left.push(copy)?;
        }
    }
    Ok(left)
}

fn add_cell(
    alloc: Global,
    region: usize,
    offset: &Term,
    value: &Term,
    cells: &mut Items<Cell>,
) -> Result<(), AllocError>
    ensures { OnOk result (cells.new ≡ with_cell cells.old region offset.now (Some value.now)) }
{
    let value = value.copy(alloc)?;
    let offset = offset.copy(alloc)?;
    cells.push(Cell {
        region,
        offset,
        value,
    })?;
    Ok(())
}

/// The cells after a store.
pub(crate) fn cells_after(
    alloc: Global,
    region: usize,
    offset: &Term,
    value: &Option<Term>,
    cells: &[Cell],
) -> Result<Items<Cell>, AllocError>
    ensures { IfOk result (λ after. after ≡ cells_after region offset.now value.now cells.now) }
{
    let mut after = cells_apart(alloc, region, offset, cells)?;
    if let Some(value) = value {
        add_cell(alloc, region, offset, value, &mut after)?;
    }
    Ok(after)
}
