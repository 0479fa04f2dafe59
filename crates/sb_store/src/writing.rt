//! What a store writes: its cell, and the bytes up to its end.
ghost use Rattle.std.specs.Prelude.{◌≡◌, IfOk};
ghost use Rattle.sb_store.specs.Stores.{cells_after, end_of, value_at_end};

use crate::cells::{cells_after, cells_apart};
use crate::target::{Target, Written};
use sb_picture::Cell;
use sb_picture::terms::{number, sum};
use sb_term::Term;
use sqlite_items::Items;
use std::alloc::{AllocError, Global};

fn end_of(alloc: Global, offset: &Term) -> Result<Option<Term>, AllocError>
    ensures { IfOk result (λ t. t ≡ end_of offset.now) }
{
    let four = number(alloc, 4);
    sum(alloc, offset, &four)
}

/// The cells after a store, by whether its end passes the limits.
fn cells_by_end(
    alloc: Global,
    target: &Target,
    value: &Option<Term>,
    end: &Option<Term>,
    cells: &[Cell],
) -> Result<Items<Cell>, AllocError>
    ensures { IfOk result
        (λ after. after ≡ cells_after target.now.at target.now.offset
        (value_at_end end.now value.now) cells.now) }
{
    match end {
        Some(_) => cells_after(alloc, target.at, &target.offset, value, cells),
        None => cells_apart(alloc, target.at, &target.offset, cells),
    }
}

/// The cells after a store, and where it ends.
pub(crate) fn written(
    alloc: Global,
    target: &Target,
    value: &Option<Term>,
    cells: &[Cell],
) -> Result<Written, AllocError>
    ensures end { IfOk result (λ w. w.end ≡ end_of target.now.offset) }
    ensures cells { IfOk result
        (λ w. w.cells ≡ cells_after target.now.at target.now.offset
        (value_at_end (end_of target.now.offset) value.now) cells.now) }
{
    let end = end_of(alloc, &target.offset)?;
    let cells = cells_by_end(alloc, target, value, &end, cells)?;
    Ok(Written { cells, end })
}
