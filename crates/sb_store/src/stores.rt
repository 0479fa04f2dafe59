//! The rule of a store `NAME[INDEX] = VALUE;` of an `int`.
ghost use Rattle.std.specs.Prelude.{◌≡◌, ◌<◌, Some, None, length, slice_get, IfOk, IfSome, OnOk};
ghost use Rattle.sb_term.specs.Asks.{run};
ghost use Rattle.sb_picture.specs.Pictures.{number_at};
ghost use Rattle.sb_store.specs.Stores.{cells_after, grown, end_of, value_at_end, reached, reaching, store_at, store_unknown, offset_of, store_to, store_rule, judged, target_in, target_by, with_cells};
ghost use Rattle.sb_picture.specs.Ends.{EndsWith};

use crate::needs::{ask_need, bounds};
use crate::prefixes::{grow, set_apart};
use crate::reports::Report;
use crate::target::{Target, Written};
use crate::warning::Need;
use crate::writing::written;
use sb_base::Place;
use sb_function::Simple;
use sb_picture::terms::{difference, element_offset, never};
use sb_picture::{Copied, Island, Picture, Region, Value, ask, number_at};
use sb_term::{Decide, DecideFault, Term};
use sqlite_items::at;
use std::alloc::{AllocError, Global};

/// Where a store goes, or none where its pointer is not known or its offset passes the limits.
fn target(
    alloc: Global,
    picture: &Picture,
    array: u32,
    index: &Option<Term>,
) -> Result<Option<Target>, AllocError>
    ensures target { IfOk result
        (λ t. t ≡ target_by picture.now.regions (slice_get picture.now.values array) index.now) }
    ensures within { IfOk result (λ t. IfSome t (λ to. to.at < length picture.now.regions)) }
{
    match at(picture.values.as_slice(), array as usize) {
        Some(Value::Pointer { region, offset }) => {
            let offset = offset_of(alloc, offset, index)?;
            target_in(alloc, picture.regions.as_slice(), *region, offset)
        }
        Some(Value::Number(_)) | Some(Value::Unknown) | None => Ok(None),
    }
}

fn offset_of(alloc: Global, base: &Term, index: &Option<Term>) -> Result<Option<Term>, AllocError>
    ensures { IfOk result (λ t. t ≡ offset_of base.now index.now) }
{
    match index {
        Some(index) => element_offset(alloc, base, index),
        None => Ok(None),
    }
}

fn target_in(
    alloc: Global,
    regions: &[Region],
    number: usize,
    offset: Option<Term>,
) -> Result<Option<Target>, AllocError>
    ensures target { IfOk result (λ t. t ≡ target_in number (slice_get regions.now number) offset) }
    ensures within { IfOk result (λ t. IfSome t (λ to. to.at < length regions.now)) }
{
    match (at(regions, number), offset) {
        (Some(region), Some(offset)) => {
            let region = region.copied(alloc)?;
            Ok(Some(Target {
                at: number,
                region,
                offset,
            }))
        }
        (Some(_), None) | (None, _) => Ok(None),
    }
}

/// Adds the bytes of a store up to its end to a region.
fn add_bytes(
    alloc: Global,
    picture: &mut Picture,
    target: Target,
    reaches: bool,
    end: Term,
) -> Result<(), AllocError>
    requires { target.at < length picture.old.regions }
    ensures { OnOk result
        (picture.new ≡ grown picture.old target.at target.region target.offset reaches (Some end)) }
{
    let Target { at, region, offset } = target;
    if reaches {
        grow(alloc, picture, at, region, &end)?;
    } else {
        set_apart(picture, at, region, Island { start: offset, end })?;
    }
    Ok(())
}

/// The same, where the end may pass the limits.
fn add_bytes_to(
    alloc: Global,
    picture: &mut Picture,
    target: Target,
    reaches: bool,
    end: Option<Term>,
) -> Result<(), AllocError>
    requires { target.at < length picture.old.regions }
    ensures { OnOk result
        (picture.new ≡ grown picture.old target.at target.region target.offset reaches end) }
{
    if let Some(end) = end {
        add_bytes(alloc, picture, target, reaches, end)?;
    }
    Ok(())
}

/// What a store to a target leaves of a picture, by whether the prefix reaches it.
fn after_store(
    alloc: Global,
    picture: &mut Picture,
    target: Target,
    reaches: bool,
    written: Written,
) -> Result<(), AllocError>
    requires { target.at < length picture.old.regions }
    ensures { OnOk result
        (picture.new
        ≡ with_cells (grown picture.old target.at target.region target.offset reaches written.end)
        written.cells) }
{
    let Written { cells, end } = written;
    add_bytes_to(alloc, picture, target, reaches, end)?;
    picture.cells = cells;
    Ok(())
}

/// What a store to a target needs, and whether the prefix reaches it.
fn reaching<V: Decide>(
    alloc: Global,
    place: Place,
    picture: &Picture,
    target: &Target,
    judge: &mut V,
    report: &mut Report,
) -> Result<bool, DecideFault>
    requires { V.stop judge.old ≡ None }
    ensures rule { EndsWith result (reached report.new) judge.new
        (run V.stop V.gives V.after
        (reaching place picture.now target.now.region target.now.offset report.old)
        judge.old) }
    ensures stop { OnOk result (V.stop judge.new ≡ None) }
{
    bounds(
        alloc,
        place,
        picture,
        &target.region,
        &target.offset,
        judge,
        report,
    )?;
    let reaches = difference(alloc, &target.region.written, &target.offset, 0)?;
    let asked = ask(alloc, picture.facts.as_slice(), reaches, judge)?;
    Ok(asked.is_proved())
}

/// The same, and what the store writes.
fn reaching_with<V: Decide>(
    alloc: Global,
    place: Place,
    picture: &Picture,
    target: &Target,
    value: &Option<Term>,
    judge: &mut V,
    report: &mut Report,
) -> Result<(bool, Written), DecideFault>
    requires { V.stop judge.old ≡ None }
    ensures rule { EndsWith result (λ x. reached report.new x.0) judge.new
        (run V.stop V.gives V.after
        (reaching place picture.now target.now.region target.now.offset report.old)
        judge.old) }
    ensures end { IfOk result (λ x. x.1.end ≡ end_of target.now.offset) }
    ensures cells { IfOk result
        (λ x. x.1.cells ≡ cells_after target.now.at target.now.offset
        (value_at_end (end_of target.now.offset) value.now) picture.now.cells) }
    ensures stop { OnOk result (V.stop judge.new ≡ None) }
{
    let reaches = reaching(alloc, place, picture, target, judge, report)?;
    let written = written(alloc, target, value, picture.cells.as_slice())?;
    Ok((reaches, written))
}

/// A store to a target.
fn store_at<V: Decide>(
    alloc: Global,
    place: Place,
    picture: &mut Picture,
    target: Target,
    value: &Option<Term>,
    judge: &mut V,
    report: &mut Report,
) -> Result<(), DecideFault>
    requires begun { V.stop judge.old ≡ None }
    requires within { target.at < length picture.old.regions }
    ensures rule { EndsWith result (λ _. judged report.new picture.new) judge.new
        (run V.stop V.gives V.after
        (store_at place picture.old target.at target.region target.offset value.now
        report.old) judge.old) }
    ensures stop { OnOk result (V.stop judge.new ≡ None) }
{
    let parts = reaching_with(alloc, place, picture, &target, value, judge, report)?;
    let (reaches, written) = parts;
    after_store(alloc, picture, target, reaches, written)?;
    Ok(())
}

/// A store through a pointer of which nothing is known.
#[tactic(auto, using(sb_term::specs::AskLaws::runs))]
fn store_unknown<V: Decide>(
    alloc: Global,
    place: Place,
    picture: &Picture,
    judge: &mut V,
    report: &mut Report,
) -> Result<(), DecideFault>
    requires { V.stop judge.old ≡ None }
    ensures rule { EndsWith result (λ _. judged report.new picture.now) judge.new
        (run V.stop V.gives V.after (store_unknown place picture.now report.old) judge.old) }
    ensures stop { OnOk result (V.stop judge.new ≡ None) }
{
    let goal = Some(never(alloc));
    ask_need(alloc, place, Need::Known, picture, goal, judge, report)?;
    Ok(())
}

/// The target of a store by its pointer and its index.
fn target_of(
    alloc: Global,
    picture: &Picture,
    array: u32,
    index: Simple,
) -> Result<Option<Target>, AllocError>
    ensures target { IfOk result
        (λ t. t ≡ target_by picture.now.regions (slice_get picture.now.values array)
        (number_at picture.now.values index)) }
    ensures within { IfOk result (λ t. IfSome t (λ to. to.at < length picture.now.regions)) }
{
    let index = number_at(alloc, picture.values.as_slice(), index)?;
    let target = target(alloc, picture, array, &index)?;
    Ok(target)
}

/// The target of a store, and the value that it stores.
fn target_and_value(
    alloc: Global,
    picture: &Picture,
    array: u32,
    index: Simple,
    value: Simple,
) -> Result<(Option<Target>, Option<Term>), AllocError>
    ensures target { IfOk result
        (λ x. x.0 ≡ target_by picture.now.regions (slice_get picture.now.values array)
        (number_at picture.now.values index)) }
    ensures within { IfOk result (λ x. IfSome x.0 (λ to. to.at < length picture.now.regions)) }
    ensures value { IfOk result (λ x. x.1 ≡ number_at picture.now.values value) }
{
    let value = number_at(alloc, picture.values.as_slice(), value)?;
    let target = target_of(alloc, picture, array, index)?;
    Ok((target, value))
}

fn store_to<V: Decide>(
    alloc: Global,
    place: Place,
    picture: &mut Picture,
    target: Option<Target>,
    value: &Option<Term>,
    judge: &mut V,
    report: &mut Report,
) -> Result<(), DecideFault>
    requires begun { V.stop judge.old ≡ None }
    requires within { IfSome target (λ to. to.at < length picture.old.regions) }
    ensures rule { EndsWith result (λ _. judged report.new picture.new) judge.new
        (run V.stop V.gives V.after (store_to place picture.old target value.now report.old)
        judge.old) }
    ensures stop { OnOk result (V.stop judge.new ≡ None) }
{
    match target {
        Some(target) => store_at(alloc, place, picture, target, value, judge, report),
        None => store_unknown(alloc, place, picture, judge, report),
    }
}

/// The rule of a store, in a picture that is lent.
fn store_on<V: Decide>(
    alloc: Global,
    array: u32,
    index: Simple,
    value: Simple,
    place: Place,
    picture: &mut Picture,
    judge: &mut V,
    report: &mut Report,
) -> Result<(), DecideFault>
    requires { V.stop judge.old ≡ None }
    ensures rule { EndsWith result (λ _. judged report.new picture.new) judge.new
        (run V.stop V.gives V.after
        (store_rule array index value place picture.old report.old) judge.old) }
    ensures stop { OnOk result (V.stop judge.new ≡ None) }
{
    let parts = target_and_value(alloc, picture, array, index, value)?;
    let (target, value) = parts;
    store_to(alloc, place, picture, target, &value, judge, report)
}

/// The rule of a store: the picture after it, with what it needs and is not proved taken up in the report.
pub fn store<V: Decide>(
    alloc: Global,
    array: u32,
    index: Simple,
    value: Simple,
    place: Place,
    from: Picture,
    judge: &mut V,
    report: &mut Report,
) -> Result<Picture, DecideFault>
    requires { V.stop judge.old ≡ None }
    ensures rule { EndsWith result (judged report.new) judge.new
        (run V.stop V.gives V.after (store_rule array index value place from report.old)
        judge.old) }
    ensures stop { OnOk result (V.stop judge.new ≡ None) }
{
    let mut after = from;
    store_on(alloc, array, index, value, place, &mut after, judge, report)?;
    Ok(after)
}
