//! The pieces of a file (C99 5.1.1.2, phase 3).
ghost use Rattle.std.specs.Prelude.{◌≡◌, ◌≤◌, false, MatchResult, IfOk, length};
ghost use Rattle.sb_base.specs.Names.{IsDistinct};
ghost use Rattle.sb_lex.specs.Splicing.{text_of_file};
ghost use Rattle.sb_lex.specs.Lexing.{Lexes, End, PiecesOf, most_pieces};
ghost use Rattle.sb_lex.specs.Lexing.End.{Whole};
ghost use Rattle.sb_lex.specs.Faults.{IsFault, IsNoPieces, IsNamed, HasOneReading, KeepsNumbers};
ghost use Rattle.sb_lex.specs.Tables.{KeepsTable};

use crate::cursor::Cursor;
use crate::item::{Line, What, item_at};
use crate::piece::PpToken;
use crate::values::has_value;
use sb_base::{Name, Names, NamesFault, Place, PpKind, Refusal, Stop};
use std::alloc::Global;

/// A file has at most so many pieces.
const MOST_PIECES: usize = 1_000_000;

fn stop_at(number: u16, place: Place) -> Stop
    ensures { result ≡ Stop.Refused (record { number = number; place = place; feature = 0 }) }
{
    Stop::Refused(Refusal {
        number,
        place,
        feature: 0,
    })
}

/// The number of a piece's spelling in the table of names, with `count` pieces of the file before it, or why it has none.
fn number_of(
    alloc: Global,
    names: &mut Names,
    kind: PpKind,
    text: &[u8],
    count: usize,
    place: Place,
) -> Result<Name, Stop>
    ensures named { IsNamed names.old.limit count names.old.texts kind text.now place
        names.new.texts result }
    ensures limit { names.new.limit ≡ names.old.limit }
    ensures numbers { KeepsNumbers names.old.texts names.new.texts }
    ensures distinct { IsDistinct names.old.texts → IsDistinct names.new.texts }
    ensures within { length names.old.texts ≤ names.old.limit → length names.new.texts
        ≤ names.new.limit }
{
    if !has_value(kind, text) {
        return Err(stop_at(4, place));
    }
    if count >= MOST_PIECES {
        return Err(stop_at(5, place));
    }
    match names.intern(alloc, text) {
        Ok(name) => Ok(name),
        Err(NamesFault::Full) => Err(stop_at(28, place)),
        Err(NamesFault::Memory) => Err(Stop::Memory),
    }
}

/// The pieces of a file, in order.
fn pieces(alloc: Global, names: &mut Names, bytes: &[u8], file: u32) -> Result<Vec<PpToken>, Stop>
    requires { length bytes.now ≤ 4194304 }
    ensures most { IfOk result (λ pieces. length pieces.items ≤ most_pieces) }
    ensures pieces { MatchResult result
        (λ pieces. Lexes file names.old.limit Line.Begin false 0 names.old.texts
        (text_of_file bytes.now) pieces.items names.new.texts Whole)
        (IsFault file names.old.limit names.old.texts (text_of_file bytes.now) names.new.texts) }
    ensures table { KeepsTable names.old names.new }
{
    let mut pieces = Vec::new(alloc);
    let mut text = Vec::new(alloc);
    let mut rest = Cursor::new(bytes);
    let mut line = Line::Begin;
    let mut spaced = false;
    'items: while let Some(spot) = rest.peek() {
        let place = spot.place(file);
        let item = item_at(line, &rest);
        let Some(size) = item.size(&rest) else {
            return Err(stop_at(item.refusal, place));
        };
        let What::Piece(kind) = item.what else {
            rest.skip(size);
            line = line.behind_space(item.what);
            spaced = true;
            continue;
        };
        let Ok(()) = rest.take(size, &mut text) else {
            return Err(Stop::Memory);
        };
        let spelling = text.as_slice();
        let name = number_of(alloc, names, kind, spelling, pieces.len(), place)?;
        let piece = PpToken {
            kind,
            text: name,
            place,
            first: line.is_begin(),
            spaced,
        };
        let Ok(()) = pieces.push(piece) else {
            return Err(Stop::Memory);
        };
        line = line.after(kind, spelling);
        spaced = false;
    }
    Ok(pieces)
}

/// The pieces of a file, in order, with their spellings in the table of names.
///
/// A piece is the longest that fits (C99 6.4), its place the physical line and the byte in it where it begins. Splices
/// and the carriage return before a newline (5.1.1.2, phases 1 and 2) and a byte order mark belong to no piece, and a
/// comment is a space. Header names stand behind `# include` alone (6.4.7).
///
/// The first of these that comes stops it, at its first byte:
/// - 1: a comment that is not closed,
/// - 2: a literal that is not closed in its line,
/// - 3: a byte that begins no piece,
/// - 4: a number or literal that has no value,
/// - 5: a piece too many, the 1,000,001st,
/// - 28: a spelling for which the table of names has no room.
///
/// Want of memory may come at any time.
pub fn lex(alloc: Global, names: &mut Names, bytes: &[u8], file: u32) -> Result<Vec<PpToken>, Stop>
    requires { length bytes.now ≤ 4194304 }
    ensures pieces { MatchResult result
        (λ pieces. PiecesOf file names.old.limit names.old.texts bytes.now pieces.items
        names.new.texts Whole)
        (IsNoPieces file names.old.limit names.old.texts bytes.now names.new.texts) }
    ensures most { IfOk result (λ pieces. length pieces.items ≤ most_pieces) }
    ensures only { IsDistinct names.old.texts → HasOneReading file names.old.limit names.old.texts
        (text_of_file bytes.now) }
    ensures limit { names.new.limit ≡ names.old.limit }
    ensures numbers { KeepsNumbers names.old.texts names.new.texts }
    ensures distinct { IsDistinct names.old.texts → IsDistinct names.new.texts }
    ensures within { length names.old.texts ≤ names.old.limit → length names.new.texts
        ≤ names.new.limit }
{
    pieces(alloc, names, bytes, file)
}
