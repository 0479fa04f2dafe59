//! The longest front of a text that is a piece, or white space.
ghost use Rattle.std.specs.Prelude.{◌≡◌, ◌≤◌, MatchOption, Option, if◌then◌else◌, length};
ghost use Rattle.sb_lex.specs.Splicing.{bytes_of};
ghost use Rattle.sb_lex.specs.Items.{is_whole, next_at, some_front, Longest, NoneFits};

use crate::cursor::Cursor;
use crate::scan::Scan;

/// How it goes on with the byte that stands here, or None where it does not.
fn next_at(text: &Cursor, scan: Scan) -> Option<Scan>
    ensures { result ≡ next_at scan (bytes_of text.now) }
{
    let spot = text.peek()?;
    scan.next(spot.byte)
}

/// The longest front that may end, once `count` bytes are read.
fn longest_so_far(scan: Scan, count: usize, longest: Option<usize>) -> Option<usize>
    ensures { result ≡ (if is_whole scan then Some count else longest) }
{
    if scan.is_whole() {
        Some(count)
    } else {
        longest
    }
}

/// How many bytes the longest front has that may end there, or None where no front may.
pub(crate) fn longest(text: &Cursor, start: Scan) -> Option<usize>
    requires { length text.now ≤ 4194304 }
    ensures { MatchOption result (NoneFits start (bytes_of text.now))
        (λ size. Longest start (bytes_of text.now) size) }
{
    let mut ahead = text.again();
    let mut scan = start;
    let mut count = 0;
    let mut longest = None;
    'bytes: loop {
        longest = longest_so_far(scan, count, longest);
        let Some(next) = next_at(&ahead, scan) else {
            return longest;
        };
        scan = next;
        count += 1;
        ahead.bump();
    }
}

/// Whether some front may end there.
pub(crate) fn some_front(text: &Cursor, start: Scan) -> bool
    requires { length text.now ≤ 4194304 }
    ensures { result ≡ some_front start (bytes_of text.now) }
{
    longest(text, start).is_some()
}
