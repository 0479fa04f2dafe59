//! What a store needs, and how it is told where a need is not proved.
ghost use Rattle.std.specs.Prelude.{◌≡◌, None, OnOk};
ghost use Rattle.sb_term.specs.Asks.{run};
ghost use Rattle.sb_store.specs.Stores.{told, needed, ask_present, ask_from_start, ask_before_end, bounds};
ghost use Rattle.sb_picture.specs.Ends.{EndsWith};

use crate::reports::{Report, note};
use crate::warning::{Need, Warning};
use sb_base::Place;
use sb_picture::terms::{difference, number};
use sb_picture::{Asked, Picture, Region, ask};
use sb_term::{Decide, DecideFault, Term};
use sqlite_items::Items;
use std::alloc::{AllocError, Global};

/// Takes up a need that is not proved.
fn tell(
    alloc: Global,
    place: Place,
    need: Need,
    picture: &Picture,
    asked: Asked,
    report: &mut Report,
) -> Result<(), AllocError>
    ensures { OnOk result
        (report.new ≡ told place need picture.now report.old
        (asked.query, asked.answer)) }
{
    if !asked.is_proved() {
        let Asked { query, answer } = asked;
        let labels = Items::from_slice(alloc, picture.labels.as_slice())?;
        note(
            report,
            Warning {
                place,
                need,
                query,
                answer,
                labels,
            },
        )?;
    }
    Ok(())
}

/// Asks for a need.
#[tactic(auto, using(sb_term::specs::AskLaws::runs))]
pub fn ask_need<V: Decide>(
    alloc: Global,
    place: Place,
    need: Need,
    picture: &Picture,
    goal: Option<Term>,
    judge: &mut V,
    report: &mut Report,
) -> Result<(), DecideFault>
    requires { V.stop judge.old ≡ None }
    ensures rule { EndsWith result (λ _. report.new) judge.new
        (run V.stop V.gives V.after (needed place need picture.now goal report.old)
        judge.old) }
    ensures stop { OnOk result (V.stop judge.new ≡ None) }
{
    let asked = ask(alloc, picture.facts.as_slice(), goal, judge)?;
    tell(alloc, place, need, picture, asked, report)?;
    Ok(())
}

/// The pointer is not null.
fn ask_present<V: Decide>(
    alloc: Global,
    place: Place,
    picture: &Picture,
    region: &Region,
    judge: &mut V,
    report: &mut Report,
) -> Result<(), DecideFault>
    requires { V.stop judge.old ≡ None }
    ensures rule { EndsWith result (λ _. report.new) judge.new
        (run V.stop V.gives V.after (ask_present place picture.now region.now report.old)
        judge.old) }
    ensures stop { OnOk result (V.stop judge.new ≡ None) }
{
    let one = number(alloc, 1);
    let present = difference(alloc, &region.presence, &one, 0)?;
    ask_need(alloc, place, Need::Present, picture, present, judge, report)
}

fn ask_from_start<V: Decide>(
    alloc: Global,
    place: Place,
    picture: &Picture,
    offset: &Term,
    judge: &mut V,
    report: &mut Report,
) -> Result<(), DecideFault>
    requires { V.stop judge.old ≡ None }
    ensures rule { EndsWith result (λ _. report.new) judge.new
        (run V.stop V.gives V.after (ask_from_start place picture.now offset.now report.old)
        judge.old) }
    ensures stop { OnOk result (V.stop judge.new ≡ None) }
{
    let from = Some(offset.copy(alloc)?);
    ask_need(alloc, place, Need::FromStart, picture, from, judge, report)
}

/// Four bytes at an offset end within the extent.
fn ask_before_end<V: Decide>(
    alloc: Global,
    place: Place,
    picture: &Picture,
    region: &Region,
    offset: &Term,
    judge: &mut V,
    report: &mut Report,
) -> Result<(), DecideFault>
    requires { V.stop judge.old ≡ None }
    ensures rule { EndsWith result (λ _. report.new) judge.new
        (run V.stop V.gives V.after
        (ask_before_end place picture.now region.now offset.now report.old) judge.old) }
    ensures stop { OnOk result (V.stop judge.new ≡ None) }
{
    let before = difference(alloc, &region.extent, offset, -4)?;
    ask_need(
        alloc,
        place,
        Need::BeforeEnd,
        picture,
        before,
        judge,
        report,
    )
}

/// The needs of four bytes at an offset of a region.
pub fn bounds<V: Decide>(
    alloc: Global,
    place: Place,
    picture: &Picture,
    region: &Region,
    offset: &Term,
    judge: &mut V,
    report: &mut Report,
) -> Result<(), DecideFault>
    requires { V.stop judge.old ≡ None }
    ensures rule { EndsWith result (λ _. report.new) judge.new
        (run V.stop V.gives V.after
        (bounds place picture.now region.now offset.now report.old) judge.old) }
    ensures stop { OnOk result (V.stop judge.new ≡ None) }
{
    ask_present(alloc, place, picture, region, judge, report)?;
    ask_from_start(alloc, place, picture, offset, judge, report)?;
    ask_before_end(alloc, place, picture, region, offset, judge, report)
}
