//! A place in a file, at a byte of its text once lines are spliced (C99 5.1.1.2, phases 1 and 2).
ghost use Rattle.std.specs.Prelude.{◌≡◌, ◌+◌, ◌≤◌, ◌++◌, Option, IfOk, IsTrue, List, length, take, drop, slice_get};
ghost use Rattle.sb_lex.specs.declared.spot.Spot.{Spot};
ghost use Rattle.sb_lex.specs.Splicing.{spliced, text_of_file, has_mark, bytes_of};
ghost use Rattle.sb_lex.specs.Items.{byte_at};
ghost use Rattle.sb_lex.specs.Cursors.{begins_return, splice_length, IsNear};

use crate::spot::Spot;
use std::alloc::AllocError;
use std::marker::Model;

/// The byte order mark, which is no part of a text.
const MARK: [u8; 3] = [0xEF, 0xBB, 0xBF];

/// The byte at an index, 0 past the end.
fn byte_at(bytes: &[u8], index: usize) -> u8
    ensures { result ≡ byte_at bytes.now index }
{
    match bytes.get(index) {
        Some(byte) => *byte,
        None => 0,
    }
}

/// Whether a carriage return stands here that belongs to the end of a line.
fn begins_return(bytes: &[u8]) -> bool
    ensures { result ≡ begins_return bytes.now }
{
    byte_at(bytes, 0) == b'\r' && byte_at(bytes, 1) == b'\n'
}

/// How many bytes the splice has that stands here, 0 if none does.
fn splice_length(bytes: &[u8]) -> usize
    ensures { result ≡ splice_length bytes.now }
{
    if byte_at(bytes, 0) != b'\\' {
        0
    } else if byte_at(bytes, 1) == b'\n' {
        2
    } else if begins_return(&bytes[1..]) {
        3
    } else {
        0
    }
}

/// A place in a file. A clause sees the text from there on, each byte with its physical line and column.
#[derive(Drop)]
pub(crate) struct Cursor<'a> {
    rest: &'a [u8],
    line: u32,
    col: u32,
}

impl<'a> Model for Cursor<'a> {
    ghost use Rattle.std.specs.Prelude.{List};
    ghost use Rattle.sb_lex.specs.declared.spot.Spot.{Spot};
    ghost use Rattle.sb_lex.specs.Splicing.{spliced};
    ghost use Rattle.sb_lex.specs.Cursors.{IsInside};

    ghost Value = { List Spot };

    ghost view = { λ c. spliced c.line c.col c.rest.now };

    ghost invariant = { λ c. IsInside c.line c.col c.rest.now };
}

/// The first byte of the text from this place on.
fn cursor_at(bytes: &[u8], line: u32, col: u32) -> Cursor
    requires { IsNear line col bytes.now }
    ensures { result ≡ spliced line col bytes.now }
{
    let mut rest = bytes;
    let mut line = line;
    let mut col = col;
    'joints: loop {
        if begins_return(rest) {
            rest = &rest[1..];
            col += 1;
            continue;
        }
        let joint = splice_length(rest);
        if joint == 0 {
            return Cursor { rest, line, col };
        }
        rest = &rest[joint..];
        line += 1;
        col = 1;
    }
}

impl<'a> Cursor<'a> {
    /// The first byte of the text of a file.
    pub(crate) fn new(bytes: &'a [u8]) -> Cursor<'a>
        requires { length bytes.now ≤ 4194304 }
        ensures text { result ≡ text_of_file bytes.now }
        ensures short { length result ≤ 4194304 }
    {
        if bytes.starts_with(&MARK) {
            cursor_at(&bytes[3..], 1, 4)
        } else {
            cursor_at(bytes, 1, 1)
        }
    }

    /// The same place.
    pub(crate) fn again(&self) -> Cursor<'a>
        ensures { result ≡ self.now }
    {
        Cursor {
            rest: self.rest,
            line: self.line,
            col: self.col,
        }
    }

    /// The byte that stands here, or None at the end.
    pub(crate) fn peek(&self) -> Option<Spot>
        ensures { result ≡ slice_get self.now 0 }
    {
        match self.rest.first() {
            Some(byte) => Some(Spot {
                byte: *byte,
                line: self.line,
                col: self.col,
            }),
            None => None,
        }
    }

    /// Moves behind the byte that stands here.
    pub(crate) fn bump(&mut self)
        ensures { self.new ≡ drop 1 self.old }
    {
        let Some((byte, behind)) = self.rest.split_first() else {
            return;
        };
        if *byte == b'\n' {
            *self = cursor_at(behind, self.line + 1, 1);
        } else {
            *self = cursor_at(behind, self.line, self.col + 1);
        }
    }

    /// The byte that stands here, 0 at the end.
    pub(crate) fn byte(&self) -> u8
        ensures { result ≡ byte_at (bytes_of self.now) 0 }
    {
        match self.peek() {
            Some(spot) => spot.byte,
            None => 0,
        }
    }

    /// Moves behind so many bytes, or to the end.
    pub(crate) fn skip(&mut self, count: usize)
        ensures { self.new ≡ drop count self.old }
    {
        'skipped: for _ in 0..count {
            self.bump();
        }
    }

    /// The place behind so many bytes, or the end.
    pub(crate) fn ahead(&self, count: usize) -> Cursor<'a>
        ensures { result ≡ drop count self.now }
    {
        let mut ahead = self.again();
        ahead.skip(count);
        ahead
    }

    /// Moves behind so many bytes, or to the end, and puts them into `text`, in place of what it held.
    pub(crate) fn take(&mut self, count: usize, text: &mut Vec<u8>) -> Result<(), AllocError>
        ensures text { IfOk result (λ _. text.new.items ≡ take count (bytes_of self.old)) }
        ensures place { IfOk result (λ _. self.new ≡ drop count self.old) }
    {
        text.clear();
        'taken: for _ in 0..count {
            if let Some(spot) = self.peek() {
                text.push(spot.byte)?;
                self.bump();
            }
        }
        Ok(())
    }
}
