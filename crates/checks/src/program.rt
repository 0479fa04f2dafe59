//! Cases of whole commands: the status, and what is written.

use sb_base::{Library, MemSink};
use sb_show::{Block, Report, calls, library};
use sb_top::prefast;
use std::alloc::{AllocError, Global};

/// The words of a block from word `skipped` on.
fn words_of(alloc: Global, words: &str, skipped: usize) -> Result<Vec<String>, AllocError> {
    let mut list = Vec::new(alloc);
    for word in words.split(' ').skip(skipped) {
        list.push(String::from_str(alloc, word)?)?;
    }
    Ok(list)
}

/// Carries out the words of a command over a library, with a sink of which this call fails.
fn put_answer<L: Library>(
    alloc: Global,
    words: &[String],
    lib: &mut L,
    failing: Option<u32>,
    report: &mut Report,
) {
    let Ok(failing) = calls(alloc, failing) else {
        report.cut();
        return;
    };
    let mut out = MemSink::new(Vec::new(alloc), failing);
    let status = prefast(alloc, words, lib, &mut out);
    report.word("status ");
    report.number(i128::from(status as u8));
    report.word("\n");
    report.bytes(out.bytes());
}

/// `command WORD..`: over the files of the block. `unread CALL WORD..` and `unwritten CALL WORD..`: where that call of the
/// library or of the sink fails.
pub(crate) fn put_command(alloc: Global, block: &Block, line: &str, report: &mut Report) {
    let stage = block.word(0);
    let call = block.number(1, 0);
    let skipped = if stage == "command" { 1 } else { 2 };
    let unread = if stage == "unread" { Some(call) } else { None };
    let unwritten = if stage == "unwritten" {
        Some(call)
    } else {
        None
    };
    let Ok(words) = words_of(alloc, block.words, skipped) else {
        report.cut();
        return;
    };
    match library(alloc, block, line, unread) {
        Ok(mut lib) => put_answer(alloc, &words, &mut lib, unwritten, report),
        Err(_) => report.cut(),
    }
}

/// `folder WORD..`: over the files of the folder.
pub(crate) fn put_folder_command<L: Library>(
    alloc: Global,
    folder: &mut L,
    words: &str,
    report: &mut Report,
) {
    match words_of(alloc, words, 1) {
        Ok(words) => put_answer(alloc, &words, folder, None, report),
        Err(_) => report.cut(),
    }
}
