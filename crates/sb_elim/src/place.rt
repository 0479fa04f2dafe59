ghost use Rattle.std.specs.Prelude.{◌≡◌, position, OnOk};
ghost use Rattle.sb_term.specs.Linear.{is_same_list};
ghost use Rattle.sb_term.specs.Elimination.{put as put_among};

use crate::terms::{is_same, rest};
use sb_term::Numbered;
use std::alloc::AllocError;

/// The first row with the coefficients of `row`.
fn equal_row(rows: &[Numbered], row: &Numbered) -> Option<usize>
    ensures { result ≡ position (λ o. is_same_list o.term.entries row.now.term.entries) rows.now }
{
    rows.iter().position(|other| is_same(other, row))
}

/// Puts a row in the place of one with equal coefficients, where its constant is less, and else at the end.
pub fn put(rows: &mut Vec<Numbered>, row: Numbered) -> Result<(), AllocError>
    ensures { OnOk result (rows.new.items ≡ put_among row rows.old.items) }
{
    match equal_row(rows, &row) {
        None => rows.push(row)?,
        Some(at) => {
            if rest(&row) < rest(&rows[at]) {
                rows[at] = row;
            }
        }
    }
    Ok(())
}
