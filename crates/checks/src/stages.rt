//! Which stage a block is for.

use crate::deciding::{put_combined, put_decided, put_rational, put_term};
use crate::program::{put_command, put_folder_command};
use crate::tables::{put_library, put_sink, put_tables};
use sb_base::Library;
use sb_show::{Block, Report, Stages, calls, library};
use std::alloc::Global;

/// The stages of commands, of tables and of the outside, and of queries.
pub(crate) struct CommandStages;

/// `sink CALL`: over a sink of which that call fails.
fn put_sink_case(alloc: Global, block: &Block, report: &mut Report) {
    match calls(alloc, Some(block.number(1, 0))) {
        Ok(failing) => put_sink(alloc, failing, block.lines, report),
        Err(_) => report.cut(),
    }
}

/// `library CALL`: over the files of the block, where that call fails.
fn put_library_case(alloc: Global, block: &Block, report: &mut Report) {
    match library(alloc, block, "", Some(block.number(1, 0))) {
        Ok(mut lib) => put_library(alloc, &mut lib, block.lines, report),
        Err(_) => report.cut(),
    }
}

impl Stages for CommandStages {
    fn put_whole<L: Library>(
        &self,
        alloc: Global,
        folder: &mut L,
        block: &Block,
        report: &mut Report,
    ) -> bool {
        let stage = block.word(0);
        if stage == "tables" {
            put_tables(alloc, block.number(1, 0), block.lines, report);
        } else if stage == "decide" {
            put_decided(alloc, block.lines, report);
        } else if stage == "host" {
            put_library(alloc, folder, block.lines, report);
        } else if stage == "folder" {
            put_folder_command(alloc, folder, block.words, report);
        } else if stage == "sink" {
            put_sink_case(alloc, block, report);
        } else if stage == "library" {
            put_library_case(alloc, block, report);
        } else {
            return false;
        }
        true
    }

    fn put_case(&self, alloc: Global, block: &Block, line: &str, report: &mut Report) {
        let stage = block.word(0);
        if stage == "rational" {
            put_rational(line, report);
        } else if stage == "term" {
            put_term(alloc, line, report);
        } else if stage == "combine" {
            put_combined(alloc, line, report);
        } else {
            put_command(alloc, block, line, report);
        }
    }
}
