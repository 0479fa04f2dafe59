//! What a store leaves of the region that it writes: the written prefix and the islands beside it.
ghost use Rattle.std.specs.Prelude.{◌≡◌, ◌<◌, length, position, IfOk, IfSome, OnOk};
ghost use Rattle.std.specs.List.{list_any};
ghost use Rattle.sb_picture.specs.Regions.{is_positive, is_next, taken_in, taken_at, absorbed, with_prefix, same_island, with_island, greater, greater_end};

use crate::picture::{Island, Region};
use crate::terms::{difference, has_symbol, same_term};
use sb_term::Term;
use sqlite_items::Items;
use std::alloc::{AllocError, Global};

fn is_positive(size: &Option<Term>) -> bool
    ensures { result ≡ is_positive size.now }
{
    match size {
        Some(size) => !has_symbol(size) && 0 < size.rest(),
        None => false,
    }
}

/// Whether an island starts where the prefix ends, and is not empty by a constant.
fn is_next(alloc: Global, written: &Term, island: &Island) -> Result<bool, AllocError>
    ensures { IfOk result (λ next. next ≡ is_next written.now island.now) }
{
    if !same_term(&island.start, written) {
        return Ok(false);
    }
    let size = difference(alloc, &island.end, &island.start, 0)?;
    Ok(is_positive(&size))
}

fn next_island(
    alloc: Global,
    written: &Term,
    islands: &[Island],
) -> Result<Option<usize>, AllocError>
    ensures first { IfOk result (λ at. at ≡ position (is_next written.now) islands.now) }
    ensures within { IfOk result (λ at. IfSome at (λ k. k < length islands.now)) }
{
    for (at, island) in islands.iter().enumerate() {
        let next = is_next(alloc, written, island)?;
        if next {
            return Ok(Some(at));
        }
    }
    Ok(None)
}

/// Takes islands into the prefix that starts where it ends.
fn absorb(alloc: Global, region: &mut Region) -> Result<(), AllocError>
    ensures { OnOk result (region.new ≡ absorbed (length region.old.islands) region.old) }
{
    for _turn in 0..region.islands.len() {
        let next = next_island(alloc, &region.written, region.islands.as_slice())?;
        match next {
            Some(at) => {
                let Island { start: _, end } = region.islands.remove(at);
                region.written = end;
            }
            None => return Ok(()),
        }
    }
    Ok(())
}

/// A region with a prefix that ends elsewhere, and the islands that it then meets.
pub fn with_prefix(alloc: Global, region: Region, written: Term) -> Result<Region, AllocError>
    ensures { IfOk result (λ after. after ≡ with_prefix region written) }
{
    let mut after = Region {
        name: region.name,
        presence: region.presence,
        extent: region.extent,
        written,
        islands: region.islands,
    };
    absorb(alloc, &mut after)?;
    Ok(after)
}

fn same_island(first: &Island, second: &Island) -> bool
    ensures { result ≡ same_island first.now second.now }
{
    same_term(&second.start, &first.start) && same_term(&second.end, &first.end)
}

fn holds_island(islands: &[Island], island: &Island) -> bool
    ensures { result ≡ list_any (same_island island.now) islands.now }
{
    islands.iter().any(|other| same_island(island, other))
}

/// One island more, unless it stands.
pub fn add_island(region: &mut Region, island: Island) -> Result<(), AllocError>
    ensures { OnOk result (region.new ≡ with_island region.old island) }
{
    if !holds_island(region.islands.as_slice(), &island) {
        region.islands.push(island)?;
    }
    Ok(())
}

/// The greater of two ends, or none where their difference is no constant.
pub fn greater_end(alloc: Global, written: &Term, end: &Term) -> Result<Option<Term>, AllocError>
    ensures { IfOk result (λ t. t ≡ greater_end written.now end.now) }
{
    let difference = difference(alloc, written, end, 0)?;
    greater(alloc, written, end, &difference)
}

fn greater(
    alloc: Global,
    written: &Term,
    end: &Term,
    difference: &Option<Term>,
) -> Result<Option<Term>, AllocError>
    ensures { IfOk result (λ t. t ≡ greater written.now end.now difference.now) }
{
    match difference {
        None => Ok(None),
        Some(difference) => {
            if has_symbol(difference) {
                return Ok(None);
            }
            let greater = if 0 <= difference.rest() { written } else { end };
            let copy = greater.copy(alloc)?;
            Ok(Some(copy))
        }
    }
}
