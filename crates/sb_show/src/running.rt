//! How a program of cases runs: its words name files of the folder, each a list of cases (`block.rt` says its form), and
//! what is found of each case is written.

use crate::block::Block;
use crate::report::Report;
use sb_base::{FolderLibrary, Found, Library, OutSink, Sink, fetch_file};
use std::alloc::Global;
use std::env::{self, Env};
use std::process::ExitCode;
use std::rt::Files;
use std::str;

/// What a program does with the cases of its stages.
pub trait Stages {
    /// Writes what is found of a block whose lines are one case. Says whether it is such a block.
    fn put_whole<L: Library>(
        &self,
        alloc: Global,
        folder: &mut L,
        block: &Block,
        report: &mut Report,
    ) -> bool;

    /// Writes what is found of a case that is a line of itself.
    fn put_case(&self, alloc: Global, block: &Block, line: &str, report: &mut Report);
}

/// Each line of a block, or the block itself where it has none.
fn put_lines<S: Stages>(alloc: Global, stages: &S, block: &Block, report: &mut Report) {
    if block.lines.trim_end().is_empty() {
        report.word("=> ");
        stages.put_case(alloc, block, "", report);
        report.word("\n");
        return;
    }
    for line in block.lines.split('\n') {
        if !line.is_empty() {
            report.word(line);
            report.word(" => ");
            stages.put_case(alloc, block, line, report);
            report.word("\n");
        }
    }
}

/// The cases of a file.
fn put_cases<S: Stages, L: Library>(
    alloc: Global,
    stages: &S,
    folder: &mut L,
    name: &str,
    report: &mut Report,
) {
    let Ok(Found::Whole(bytes)) = fetch_file(alloc, folder, name.as_bytes()) else {
        report.cut();
        return;
    };
    let text = str::from_utf8(&bytes).unwrap_or("");
    for block in text.split("\n== ").skip(1) {
        let block = Block::new(block);
        report.word("== ");
        report.word(block.words);
        report.word("\n");
        if !stages.put_whole(alloc, folder, &block, report) {
            put_lines(alloc, stages, &block, report);
        }
    }
}

/// Writes what is found of the cases of all files that the program's words name. It fails where memory runs out, a file
/// can't be read, or the text can't be written.
pub fn run<R: Env + Files + Print + AllocGlobal, S: Stages>(rt: &R, stages: &S) -> ExitCode {
    let mut report = Report::new(rt.alloc());
    let mut folder = FolderLibrary::new(rt);
    match env::args(rt) {
        Ok(words) => {
            for name in words.skip(1) {
                put_cases(rt.alloc(), stages, &mut folder, name.as_str(), &mut report);
            }
        }
        Err(_) => report.cut(),
    }
    let mut out = OutSink::new(rt);
    if out.put(report.text().as_bytes()).is_err() || report.is_cut() {
        ExitCode::FAILURE
    } else {
        ExitCode::SUCCESS
    }
}
