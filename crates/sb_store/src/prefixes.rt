//! What a store leaves of the prefix of the region that it writes.
ghost use Rattle.std.specs.Prelude.{◌≡◌, ◌<◌, length, slice_set, OnOk};
ghost use Rattle.sb_picture.specs.Pictures.{next};
ghost use Rattle.sb_picture.specs.Regions.{greater_end, with_island, with_prefix};
ghost use Rattle.sb_store.specs.Stores.{with_prefix_facts, with_prefix_known, with_fresh_prefix, grown_to, with_region};

use sb_picture::{
    Island, Label, Part, Picture, Region, add_at_least, add_island, greater_end, with_prefix,
};
use sb_term::{Row, Sym, Term};
use sqlite_items::Items;
use std::alloc::{AllocError, Global};

/// A fresh prefix is not below the old one nor below the end of the store, nor past the extent.
fn add_prefix_facts(
    alloc: Global,
    fresh: &Term,
    region: &Region,
    end: &Term,
    facts: &mut Items<Row>,
) -> Result<(), AllocError>
    ensures { OnOk result (facts.new ≡ with_prefix_facts fresh.now region.now end.now facts.old) }
{
    add_at_least(alloc, fresh, &region.written, facts)?;
    add_at_least(alloc, fresh, end, facts)?;
    add_at_least(alloc, &region.extent, fresh, facts)?;
    Ok(())
}

fn add_prefix(
    alloc: Global,
    picture: &mut Picture,
    fresh: &Term,
    region: &Region,
    end: &Term,
) -> Result<(), AllocError>
    ensures { OnOk result
        (picture.new ≡ with_prefix_known picture.old fresh.now region.now end.now) }
{
    add_prefix_facts(alloc, fresh, region, end, &mut picture.facts)?;
    picture.labels.push(Label {
        name: region.name,
        part: Part::Written,
    })?;
    Ok(())
}

fn set_prefix(
    alloc: Global,
    regions: &mut Items<Region>,
    at: usize,
    region: Region,
    written: Term,
) -> Result<(), AllocError>
    requires { at < length regions.old }
    ensures { OnOk result (regions.new ≡ slice_set regions.old at (with_prefix region written)) }
{
    let after = with_prefix(alloc, region, written)?;
    regions.set(at, after);
    Ok(())
}

/// Gives a region a fresh prefix.
fn grow_afresh(
    alloc: Global,
    picture: &mut Picture,
    at: usize,
    region: Region,
    end: &Term,
) -> Result<(), AllocError>
    requires { at < length picture.old.regions }
    ensures { OnOk result (picture.new ≡ with_fresh_prefix picture.old at region end.now) }
{
    let fresh = Term::symbol(alloc, Sym(picture.labels.len() as u64));
    add_prefix(alloc, picture, &fresh, &region, end)?;
    set_prefix(alloc, &mut picture.regions, at, region, fresh)?;
    Ok(())
}

/// Lets the prefix of a region grow to the end of a store that it reaches.
pub(crate) fn grow(
    alloc: Global,
    picture: &mut Picture,
    at: usize,
    region: Region,
    end: &Term,
) -> Result<(), AllocError>
    requires { at < length picture.old.regions }
    ensures { OnOk result
        (picture.new
        ≡ grown_to picture.old at region end.now (greater_end region.written end.now)) }
{
    let greater = greater_end(alloc, &region.written, end)?;
    match greater {
        None => grow_afresh(alloc, picture, at, region, end)?,
        Some(written) => set_prefix(alloc, &mut picture.regions, at, region, written)?,
    }
    Ok(())
}

/// Adds the bytes of a store that the prefix does not reach.
pub(crate) fn set_apart(
    picture: &mut Picture,
    at: usize,
    region: Region,
    island: Island,
) -> Result<(), AllocError>
    requires { at < length picture.old.regions }
    ensures { OnOk result (picture.new ≡ with_region picture.old at (with_island region island)) }
{
    let mut after = region;
    add_island(&mut after, island)?;
    picture.regions.set(at, after);
    Ok(())
}
