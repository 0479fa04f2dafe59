//! How the pieces of a file stand in lines: directives, and the text between them (C99 6.10).
ghost use Rattle.std.specs.Prelude.{◌≡◌, ◌<◌, ◌≤◌, length, drop};
ghost use Rattle.sb_directive.specs.Lines as spec;
ghost use Rattle.sb_directive.specs.Lines.{part_size};

use crate::directive::Directive;
use sb_base::{Names, Place, PpKind};
use sb_lex::PpToken;

/// The bytes of a piece as the file has them, without splices; none where the table lacks its number.
pub fn spelling<'a>(names: &'a Names, piece: &PpToken) -> &'a [u8]
    ensures spelling { result.now ≡ spec.spelling names.now.texts piece.now }
{
    match names.text(piece.text) {
        Some(text) => text,
        None => b"".as_slice(),
    }
}

pub(crate) fn is_word(piece: &PpToken) -> bool
    ensures word { result ≡ spec.is_word piece.now }
{
    piece.kind == PpKind::Word
}

/// Whether the piece is a `#`, as a digraph too, that is the first of its line.
fn opens_directive(names: &Names, piece: &PpToken) -> bool
    ensures opens { result ≡ spec.opens_directive names.now.texts piece.now }
{
    let text = spelling(names, piece);
    piece.first && (text == b"#".as_slice() || text == b"%:".as_slice())
}

pub fn begins_directive(names: &Names, pieces: &[PpToken]) -> bool
    ensures begins { result ≡ spec.begins_directive names.now.texts pieces.now }
{
    match pieces.first() {
        Some(piece) => opens_directive(names, piece),
        None => false,
    }
}

/// How many pieces stand before the next directive.
fn text_size(names: &Names, pieces: &[PpToken]) -> usize
    ensures size { result ≡ spec.text_size names.now.texts pieces.now }
    ensures within { result ≤ length pieces.now }
{
    pieces
        .iter()
        .take_while(|piece| !opens_directive(names, piece))
        .count()
}

/// How many pieces stand before the next line.
fn rest_of_line(pieces: &[PpToken]) -> usize
    ensures size { result ≡ spec.rest_of_line pieces.now }
    ensures within { result ≤ length pieces.now }
{
    pieces.iter().take_while(|piece| !piece.first).count()
}

/// How many pieces the line has with which these begin.
fn line_size(pieces: &[PpToken]) -> usize
    ensures size { result ≡ spec.line_size pieces.now }
    ensures within { result ≤ length pieces.now }
{
    match pieces.split_first() {
        Some((_first, rest)) => 1 + rest_of_line(rest),
        None => 0,
    }
}

/// How many pieces the part has with which these begin: all up to the next directive, or the line of a directive.
pub fn part_size(names: &Names, pieces: &[PpToken]) -> usize
    ensures size { result ≡ part_size names.now.texts pieces.now }
    ensures within { result ≤ length pieces.now }
    ensures some { 0 < length pieces.now → 0 < result }
{
    if begins_directive(names, pieces) {
        line_size(pieces)
    } else {
        text_size(names, pieces)
    }
}

/// The directive that a word names.
fn directive_named(text: &[u8]) -> Directive
    ensures directive { result ≡ spec.directive_named text.now }
{
    if text == b"if".as_slice() {
        Directive::If
    } else if text == b"ifdef".as_slice() {
        Directive::Ifdef
    } else if text == b"ifndef".as_slice() {
        Directive::Ifndef
    } else if text == b"elif".as_slice() {
        Directive::Elif
    } else if text == b"else".as_slice() {
        Directive::Else
    } else if text == b"endif".as_slice() {
        Directive::Endif
    } else if text == b"include".as_slice() {
        Directive::Include
    } else if text == b"define".as_slice() {
        Directive::Define
    } else if text == b"undef".as_slice() {
        Directive::Undef
    } else if text == b"line".as_slice() {
        Directive::Line
    } else if text == b"error".as_slice() {
        Directive::Error
    } else if text == b"pragma".as_slice() {
        Directive::Pragma
    } else {
        Directive::Unknown
    }
}

/// The directive of a line, whose pieces begin with its `#`.
pub(crate) fn directive_of(names: &Names, line: &[PpToken]) -> Directive
    ensures directive { result ≡ spec.directive_of names.now.texts line.now }
{
    match line {
        [_hash, word, ..] => directive_named(spelling(names, word)),
        _ => Directive::Null,
    }
}

/// Where a list ends: at its last piece, and an empty one at `at`.
pub fn end_of(at: Place, pieces: &[PpToken]) -> Place
    ensures place { result ≡ spec.end_of at pieces.now }
{
    match pieces.last() {
        Some(piece) => piece.place,
        None => at,
    }
}

/// The pieces behind the word of a directive.
pub fn behind_word(line: &[PpToken]) -> &[PpToken]
    ensures behind { result.now ≡ drop 2 line.now }
{
    match line {
        [_hash, _word, rest @ ..] => rest,
        _ => &[],
    }
}

/// The place of the word of a directive; of its `#`, where nothing stands behind it.
pub fn place_of(line: &[PpToken]) -> Place
    ensures place { result ≡ spec.place_of line.now }
{
    match line {
        [_hash, word, ..] => word.place,
        [hash] => hash.place,
        [] => Place {
            file: 0,
            line: 0,
            col: 0,
        },
    }
}
