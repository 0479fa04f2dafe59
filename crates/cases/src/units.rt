//! Cases of units: the tokens that a set of files leaves, and what the readers of C's grammar make of them.

use crate::pieces::{put_count, put_stop};
use crate::trees::put_tree;
use sb_base::{Files, Names, PpKind, Refusal, Stop, Token};
use sb_prep::{UnitFault, unit};
use sb_show::{Block, Report, library, put_place, put_text, put_valued};
use std::alloc::Global;

fn put_refusal(files: &Files, refusal: Refusal, report: &mut Report) {
    put_stop(Stop::Refused(refusal), report);
    if refusal.place.file != 0 {
        report.word(" of ");
        report.bytes(files.name(refusal.place.file).unwrap_or(b"no file"));
    }
}

fn put_fault(files: &Files, fault: UnitFault, report: &mut Report) {
    match fault {
        UnitFault::Refused(refusal) => put_refusal(files, refusal, report),
        UnitFault::Read => report.word("reading failed"),
        UnitFault::Memory => report.word("no memory"),
    }
}

/// The spelling of a token, with its value where that is not written so.
pub(crate) fn put_token(names: &Names, token: &Token, report: &mut Report) {
    report.gap();
    if token.kind == PpKind::Text {
        put_text(names, token.text, report);
    } else if token.kind == PpKind::Number || token.kind == PpKind::Char || token.value != 0 {
        put_valued(names, token.text, token.value, report);
    } else {
        report.bytes(names.text(token.text).unwrap_or(b"no text"));
    }
}

pub(crate) fn put_tokens(names: &Names, tokens: &[Token], report: &mut Report) {
    for token in tokens {
        put_token(names, token, report);
    }
}

/// The tokens with the place of each; a file other than the first by its name.
fn put_placed(names: &Names, files: &Files, tokens: &[Token], report: &mut Report) {
    for token in tokens {
        put_token(names, token, report);
        report.word("@");
        if token.place.file != 0 {
            report.bytes(files.name(token.place.file).unwrap_or(b"no file"));
            report.word(":");
        }
        put_place(token.place, report);
    }
}

/// What is found of a list of tokens.
fn put_found(
    alloc: Global,
    block: &Block,
    names: &mut Names,
    files: &Files,
    tokens: &[Token],
    report: &mut Report,
) {
    let stage = block.word(0);
    if stage == "unit" || stage == "places" {
        put_count(tokens.len(), usize::MAX, report);
    }
    if stage == "unit" {
        put_tokens(names, tokens, report);
    } else if stage == "places" {
        put_placed(names, files, tokens, report);
    } else {
        put_tree(alloc, block, names, tokens, report);
    }
}

/// `unit LIMIT` and `places LIMIT`: the tokens of `t.c`, with a table of names for so many; and the stages of trees.
pub(crate) fn put_unit(alloc: Global, block: &Block, line: &str, report: &mut Report) {
    let stage = block.word(0);
    let limit = if stage == "unit" || stage == "places" {
        block.number(1, 1_000_000)
    } else {
        1_000_000
    };
    let mut names = Names::new(alloc, limit);
    let mut files = Files::new(alloc);
    let Ok(mut lib) = library(alloc, block, line, None) else {
        report.cut();
        return;
    };
    match unit(alloc, &mut names, &mut files, &mut lib, b"t.c") {
        Ok(tokens) => put_found(alloc, block, &mut names, &files, &tokens, report),
        Err(fault) => put_fault(&files, fault, report),
    }
}
