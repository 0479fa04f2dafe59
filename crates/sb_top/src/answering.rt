//! The answer to the words of a command line: the files that they ask for are preprocessed, read and judged.
ghost use Rattle.std.specs.Prelude.{◌≡◌, IfOk, map, string_bytes};
ghost use Rattle.sb_base.specs.Found.{HasReadCause};
ghost use Rattle.sb_top.specs.Sets.{tokens_of};
ghost use Rattle.sb_top.specs.Sets.Ending.{Whole};
ghost use Rattle.sb_top.specs.Outcomes.{IsEndOf, IsDefined};

use crate::reply::{Reply, refusal_reply, report_reply, unread_reply, usage_reply};
use crate::sets::{SetFault, Units, read_units, units_of_words};
use sb_base::{FetchFault, Files, Library, Names, Token};
use sb_judge::reports_of;
use sb_prep::UnitFault;
use std::alloc::{AllocError, Global};

/// What is written of units that are whole.
fn reply_to_units(
    alloc: Global,
    names: &Names,
    files: &Files,
    units: &[Vec<Token>],
) -> Result<Reply, AllocError>
    ensures { IfOk result
        (λ reply. IsEndOf names.now.texts files.now (tokens_of units.now) Whole reply.status
        reply.text.items) }
{
    match read_units(alloc, names, units) {
        Ok(functions) => {
            let reports = reports_of(alloc, functions.as_slice())?;
            report_reply(alloc, files, names, reports.as_slice())
        }
        Err(SetFault::Unread(place)) => unread_reply(alloc, files, place),
        Err(SetFault::Memory) => Err(AllocError),
    }
}

/// What is written in answer to some words.
pub(crate) fn reply_to<L: Library>(
    alloc: Global,
    words: &[String],
    lib: &mut L,
) -> Result<Reply, FetchFault>
    ensures defined { IfOk result
        (λ reply. IsDefined (L.held lib.old) (map string_bytes words.now) reply.status
        reply.text.items) }
    ensures held { L.held lib.new ≡ L.held lib.old }
    ensures cause { HasReadCause (L.faults lib.old) (L.faults lib.new) result }
{
    let Some(units) = units_of_words(alloc, lib, words) else {
        return Ok(usage_reply(alloc)?);
    };
    let Units {
        names,
        files,
        tokens,
    } = units;
    let reply = match tokens {
        Ok(tokens) => reply_to_units(alloc, &names, &files, tokens.as_slice())?,
        Err(UnitFault::Refused(refusal)) => refusal_reply(alloc, &files, refusal)?,
        Err(UnitFault::Read) => return Err(FetchFault::Failed),
        Err(UnitFault::Memory) => return Err(FetchFault::Memory),
    };
    Ok(reply)
}
