//! Which stage a block of texts is for.

use crate::conditions::put_condition;
use crate::macros::put_orders;
use crate::pieces::{put_literal, put_pieces, put_value};
use crate::units::put_unit;
use sb_base::Library;
use sb_show::{Block, Report, Stages, spelled};
use std::alloc::Global;

/// The stages from a text to its tree.
pub(crate) struct TextStages;

fn put_bytes_case(alloc: Global, stage: &str, line: &str, report: &mut Report) {
    match spelled(alloc, line, b"") {
        Ok(text) if stage == "literal" => put_literal(alloc, &text, report),
        Ok(text) => put_value(stage == "number", &text, report),
        Err(_) => report.cut(),
    }
}

impl Stages for TextStages {
    fn put_whole<L: Library>(
        &self,
        alloc: Global,
        _folder: &mut L,
        block: &Block,
        report: &mut Report,
    ) -> bool {
        let is_whole = block.word(0) == "macros";
        if is_whole {
            put_orders(alloc, block.number(1, 1_000_000), block.lines, report);
        }
        is_whole
    }

    fn put_case(&self, alloc: Global, block: &Block, line: &str, report: &mut Report) {
        let stage = block.word(0);
        if stage == "lex" {
            put_pieces(alloc, block.number(1, 1_000_000), line, report);
        } else if stage == "number" || stage == "character" || stage == "literal" {
            put_bytes_case(alloc, stage, line, report);
        } else if stage == "condition" || stage == "front" {
            put_condition(alloc, stage == "front", line, report);
        } else {
            put_unit(alloc, block, line, report);
        }
    }
}
