//! Cases of macros. Each line is `define LINE`, `undef NAME`, `defined NAME` or `expand TEXT`.

use crate::pieces::{pieces_of, put_count, put_stop};
use sb_base::{Names, Stop};
use sb_lex::PpToken;
use sb_macro::Macros;
use sb_show::Report;
use std::alloc::Global;

pub(crate) fn put_done(done: Result<(), Stop>, report: &mut Report) {
    match done {
        Ok(()) => report.word("done"),
        Err(stop) => put_stop(stop, report),
    }
}

fn put_words(names: &Names, tokens: &[PpToken], report: &mut Report) {
    put_count(tokens.len(), usize::MAX, report);
    for token in tokens {
        report.gap();
        report.bytes(names.text(token.text).unwrap_or(b"no text"));
    }
}

/// Whether the first of the pieces is the name of a macro, after it is taken away where `undef` says so.
fn put_defined(macros: &mut Macros, order: &str, pieces: &[PpToken], report: &mut Report) {
    let Some(piece) = pieces.first() else {
        report.word("no name");
        return;
    };
    if order == "undef" {
        macros.undef(piece.text);
    }
    report.choice(macros.is_defined(piece.text), "defined", "not defined");
}

fn put_order(
    alloc: Global,
    names: &Names,
    macros: &mut Macros,
    (order, room): (&str, u32),
    pieces: &[PpToken],
    report: &mut Report,
) {
    if order == "define" {
        put_done(macros.define(alloc, names, pieces), report);
    } else if order == "expand" {
        match macros.expand(alloc, names, pieces, room) {
            Ok(tokens) => put_words(names, &tokens, report),
            Err(stop) => put_stop(stop, report),
        }
    } else {
        put_defined(macros, order, pieces, report);
    }
}

/// `macros ROOM`: the lines one after the other, by one table, where an expansion has room for so many pieces.
pub(crate) fn put_orders(alloc: Global, room: u32, lines: &str, report: &mut Report) {
    let mut names = Names::new(alloc, 1_000_000);
    let mut macros = Macros::new(alloc);
    for line in lines.split('\n') {
        if line.is_empty() {
            continue;
        }
        let (order, text) = line.split_once(' ').unwrap_or((line, ""));
        report.word(line);
        report.word(" => ");
        match pieces_of(alloc, &mut names, text) {
            Ok(pieces) => put_order(alloc, &names, &mut macros, (order, room), &pieces, report),
            Err(stop) => put_stop(stop, report),
        }
        report.word("\n");
    }
}
