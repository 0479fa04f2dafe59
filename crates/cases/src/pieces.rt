//! Cases of pieces: what `lex` makes of a text, and the values of numbers, characters and literals.

use sb_base::{Names, PpKind, Stop};
use sb_lex::{PpToken, character_value, is_literal, lex, literal_bytes, number_value};
use sb_show::{Report, put_place, spelled};
use std::alloc::Global;

fn kind_word(kind: PpKind) -> &'static str {
    match kind {
        PpKind::Word => "word:",
        PpKind::Number => "number:",
        PpKind::Char => "char:",
        PpKind::Text => "text:",
        PpKind::Header => "header:",
        PpKind::Punct => "punct:",
    }
}

pub(crate) fn put_stop(stop: Stop, report: &mut Report) {
    match stop {
        Stop::Refused(refusal) => {
            report.word("refused ");
            report.number(i128::from(refusal.number));
            report.word(" at ");
            put_place(refusal.place, report);
            if refusal.feature != 0 {
                report.word(", feature ");
                report.number(i128::from(refusal.feature));
            }
        }
        Stop::Memory => report.word("no memory"),
    }
}

/// The text of a piece between its kind and its place, with `^` before the first of a line and `_` before one behind
/// white space.
fn put_piece(names: &Names, piece: &PpToken, report: &mut Report) {
    report.gap();
    report.choice(piece.first, "^", "");
    report.choice(piece.spaced, "_", "");
    report.word(kind_word(piece.kind));
    report.bytes(names.text(piece.text).unwrap_or(b"no text"));
    report.word("@");
    put_place(piece.place, report);
}

/// The pieces that a text of a case spells.
pub(crate) fn pieces_of(
    alloc: Global,
    names: &mut Names,
    text: &str,
) -> Result<Vec<PpToken>, Stop> {
    match spelled(alloc, text, b"") {
        Ok(bytes) if bytes.len() <= 4_194_304 => lex(alloc, names, &bytes, 0),
        _ => Err(Stop::Memory),
    }
}

/// How many pieces there are, where they are none or too many to be written out.
pub(crate) fn put_count(count: usize, most: usize, report: &mut Report) {
    if count == 0 || count > most {
        report.number(count as i128);
        report.word(" pieces");
    }
}

/// `lex LIMIT`: the pieces of a text, with a table of names for so many.
pub(crate) fn put_pieces(alloc: Global, limit: u32, text: &str, report: &mut Report) {
    let mut names = Names::new(alloc, limit);
    match pieces_of(alloc, &mut names, text) {
        Ok(pieces) => {
            if pieces.len() <= 100 {
                for piece in &pieces {
                    put_piece(&names, piece, report);
                }
            }
            put_count(pieces.len(), 100, report);
        }
        Err(stop) => put_stop(stop, report),
    }
}

/// `number` and `character`: the value.
pub(crate) fn put_value(is_number: bool, text: &[u8], report: &mut Report) {
    let value = if is_number {
        number_value(text)
    } else {
        character_value(text)
    };
    match value {
        Some(value) => report.number(i128::from(value)),
        None => report.word("none"),
    }
}

/// `literal`: the bytes, and whether it is one.
pub(crate) fn put_literal(alloc: Global, text: &[u8], report: &mut Report) {
    report.choice(is_literal(text), "literal", "none");
    match literal_bytes(alloc, text) {
        Ok(Some(bytes)) => {
            report.word(" of ");
            report.number(bytes.len() as i128);
            report.word(": ");
            report.bytes(&bytes);
        }
        Ok(None) => {}
        Err(_) => report.cut(),
    }
}
