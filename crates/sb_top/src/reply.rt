//! What a call writes where nothing fails, and the status under which it does.
ghost use Rattle.std.specs.Prelude.{◌≡◌, IfOk};
ghost use Rattle.sb_top.specs.Texts as text;
ghost use Rattle.sb_top.specs.Outcomes.{status_of, not_built_yet};

use crate::status::Status;
use crate::texts::{USAGE, count_of, refusal, report_text};
use sb_base::{Files, Names, Place, Refusal};
use sb_store::Warning;
use sqlite_items::Items;
use std::alloc::{AllocError, Global};

/// A text, and the status under which it is written.
#[derive(Drop)]
pub(crate) struct Reply {
    pub(crate) status: Status,
    pub(crate) text: Vec<u8>,
}

/// The line that is written where the words are no command.
pub(crate) fn usage_reply(alloc: Global) -> Result<Reply, AllocError>
    ensures status { IfOk result (λ reply. reply.status ≡ Status.Usage) }
    ensures text { IfOk result (λ reply. reply.text.items ≡ text.usage) }
{
    let text = Vec::from_slice(alloc, USAGE.as_bytes())?;
    Ok(Reply {
        status: Status::Usage,
        text,
    })
}

/// A report: clean where it has no warning.
pub(crate) fn report_reply(
    alloc: Global,
    files: &Files,
    names: &Names,
    reports: &[Items<Warning>],
) -> Result<Reply, AllocError>
    ensures status { IfOk result (λ reply. reply.status ≡ status_of reports.now) }
    ensures text { IfOk result
        (λ reply. reply.text.items ≡ text.report_text files.now names.now.texts reports.now) }
{
    let text = report_text(alloc, files, names, reports)?;
    let status = if count_of(reports) == 0 {
        Status::Clean
    } else {
        Status::Warned
    };
    Ok(Reply { status, text })
}

/// The line of a refusal.
pub(crate) fn refusal_reply(
    alloc: Global,
    files: &Files,
    refused: Refusal,
) -> Result<Reply, AllocError>
    ensures status { IfOk result (λ reply. reply.status ≡ Status.Refused) }
    ensures text { IfOk result (λ reply. reply.text.items ≡ text.refusal files.now refused) }
{
    let text = refusal(alloc, files, refused)?;
    Ok(Reply {
        status: Status::Refused,
        text,
    })
}

/// The refusal of a unit that is no text of the grammar that is checked, at a place.
pub(crate) fn unread_reply(alloc: Global, files: &Files, place: Place) -> Result<Reply, AllocError>
    ensures status { IfOk result (λ reply. reply.status ≡ Status.Refused) }
    ensures text { IfOk result
        (λ reply. reply.text.items ≡ text.refusal files.now (not_built_yet place)) }
{
    let refusal = Refusal {
        number: 33,
        place,
        feature: 17,
    };
    refusal_reply(alloc, files, refusal)
}
