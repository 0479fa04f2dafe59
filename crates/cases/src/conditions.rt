//! Cases of conditions: whether a line holds, and where its front is refused.

use crate::pieces::{pieces_of, put_stop};
use sb_base::{Names, Place};
use sb_cond::{condition, front_refusal};
use sb_lex::PpToken;
use sb_show::{Report, put_place};
use std::alloc::Global;

fn put_front(place: Option<Place>, report: &mut Report) {
    match place {
        Some(place) => {
            report.word("refused at ");
            put_place(place, report);
        }
        None => report.word("not refused"),
    }
}

/// Judges a line that ends at column 999, or its front.
fn put_line(alloc: Global, names: &Names, line: &[PpToken], is_front: bool, report: &mut Report) {
    let end = Place {
        file: 0,
        line: 1,
        col: 999,
    };
    if line.len() > 1_000_000 {
        report.cut();
    } else if is_front {
        match front_refusal(alloc, names, line, end) {
            Ok(place) => put_front(place, report),
            Err(_) => report.cut(),
        }
    } else {
        match condition(alloc, names, line, end) {
            Ok(holds) => report.choice(holds, "true", "false"),
            Err(stop) => put_stop(stop, report),
        }
    }
}

/// `condition` and `front`: of the pieces of a text.
pub(crate) fn put_condition(alloc: Global, is_front: bool, text: &str, report: &mut Report) {
    let mut names = Names::new(alloc, 1_000_000);
    match pieces_of(alloc, &mut names, text) {
        Ok(line) => put_line(alloc, &names, &line, is_front, report),
        Err(stop) => put_stop(stop, report),
    }
}
