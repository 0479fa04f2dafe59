//! What stands at a byte of a text: a newline, white space, or a piece of some kind (C99 6.4).
ghost use Rattle.std.specs.Prelude.{◌≡◌, ◌≤◌, MatchOption, Option, length, drop};
ghost use Rattle.sb_lex.specs.Splicing.{bytes_of};
ghost use Rattle.sb_lex.specs.Items.{angle_item, byte_at, header_item, is_begin, is_doubled, is_include, is_mark_of_four, is_mark_of_one, is_mark_of_three, is_mark_of_two, is_other_pair, item, item_at, line_after, mark_item, mark_length, ordinary_item, plain_item, takes_assign, word_or_mark, NoneFits};
ghost use Rattle.sb_lex.specs.Lexing.{HasSize};

use crate::bytes::{is_blank, is_digit, is_graphic, is_letter};
use crate::cursor::Cursor;
use crate::fronts::{longest, some_front};
use crate::scan::{Quote, Scan, Stem};
use sb_base::PpKind;

/// What an item is for the text.
#[derive(Clone, Copy, PartialEq, Eq)]
pub enum What {
    Newline,
    /// A blank or a comment.
    Gap,
    Piece(PpKind),
}

/// An item: what it is, how many bytes open it, how it goes on behind them, and the number of the refusal where it
/// does not end.
#[derive(Clone, Copy, PartialEq, Eq)]
pub struct Item {
    pub what: What,
    pub opening: usize,
    pub scan: Scan,
    pub refusal: u16,
}

/// How far the line that an item stands in has come.
#[derive(Clone, Copy, PartialEq, Eq)]
pub enum Line {
    /// Nothing but white space stands before.
    Begin,
    /// Only the `#` of a directive stands before.
    Directive,
    /// Only `# include` stands before.
    Include,
    Other,
}

impl Line {
    /// Whether nothing but white space stands before.
    pub(crate) fn is_begin(self) -> bool
        ensures { result ≡ is_begin self }
    {
        match self {
            Line::Begin => true,
            _ => false,
        }
    }

    /// How far it has come, or the next line has, behind white space.
    pub(crate) fn behind_space(self, what: What) -> Line
        ensures newline { what ≡ What.Newline → result ≡ Line.Begin }
        ensures other { (what ≡ What.Newline → ⊥) → result ≡ self }
    {
        match what {
            What::Newline => Line::Begin,
            _ => self,
        }
    }

    /// How far it has come behind a piece (6.10).
    pub(crate) fn after(self, kind: PpKind, text: &[u8]) -> Line
        ensures { result ≡ line_after self kind text.now }
    {
        match (self, kind) {
            (Line::Begin, PpKind::Punct) => {
                if text == b"#".as_slice() || text == b"%:".as_slice() {
                    Line::Directive
                } else {
                    Line::Other
                }
            }
            (Line::Directive, PpKind::Word) => {
                if text == b"include".as_slice() {
                    Line::Include
                } else {
                    Line::Other
                }
            }
            _ => Line::Other,
        }
    }
}

/// The digraph `%:%:` (6.4.6).
fn is_mark_of_four(a: u8, b: u8, c: u8, d: u8) -> bool
    ensures { result ≡ is_mark_of_four a b c d }
{
    a == b'%' && b == b':' && c == b'%' && d == b':'
}

fn is_mark_of_three(a: u8, b: u8, c: u8) -> bool
    ensures { result ≡ is_mark_of_three a b c }
{
    a == b'.' && b == b'.' && c == b'.'
        || a == b'<' && b == b'<' && c == b'='
        || a == b'>' && b == b'>' && c == b'='
}

/// An operator that `=` may follow.
fn takes_assign(a: u8) -> bool
    ensures { result ≡ takes_assign a }
{
    matches!(
        a,
        b'*' | b'/' | b'%' | b'+' | b'-' | b'&' | b'^' | b'|' | b'<' | b'>' | b'=' | b'!'
    )
}

/// A mark that may stand twice.
fn is_doubled(a: u8) -> bool
    ensures { result ≡ is_doubled a }
{
    matches!(a, b'+' | b'-' | b'<' | b'>' | b'&' | b'|' | b'#')
}

/// The arrow and the digraphs of two bytes.
fn is_other_pair(a: u8, b: u8) -> bool
    ensures { result ≡ is_other_pair a b }
{
    a == b'-' && b == b'>'
        || a == b'<' && b == b':'
        || a == b':' && b == b'>'
        || a == b'<' && b == b'%'
        || a == b'%' && b == b'>'
        || a == b'%' && b == b':'
}

fn is_mark_of_two(a: u8, b: u8) -> bool
    ensures { result ≡ is_mark_of_two a b }
{
    takes_assign(a) && b == b'=' || is_doubled(a) && a == b || is_other_pair(a, b)
}

fn is_mark_of_one(a: u8) -> bool
    ensures { result ≡ is_mark_of_one a }
{
    is_graphic(a) && a != b'"' && a != b'\''
}

/// How many bytes the longest punctuator has that begins so, 0 if none does.
fn mark_length(a: u8, b: u8, c: u8, d: u8) -> usize
    ensures length { result ≡ mark_length a b c d }
    ensures few { result ≤ 4 }
{
    if is_mark_of_four(a, b, c, d) {
        4
    } else if is_mark_of_three(a, b, c) {
        3
    } else if is_mark_of_two(a, b) {
        2
    } else if is_mark_of_one(a) {
        1
    } else {
        0
    }
}

/// A piece that so many bytes open, and that ends wherever it stands.
fn piece(kind: PpKind, opening: usize, scan: Scan) -> Item
    ensures { result ≡ item (What.Piece kind) opening scan 0 }
{
    Item {
        what: What::Piece(kind),
        opening,
        scan,
        refusal: 0,
    }
}

/// A gap, with the number of the refusal where it does not end.
fn gap(opening: usize, scan: Scan, refusal: u16) -> Item
    ensures { result ≡ item What.Gap opening scan refusal }
{
    Item {
        what: What::Gap,
        opening,
        scan,
        refusal,
    }
}

fn newline() -> Item
    ensures { result ≡ item What.Newline 1 Scan.Done 0 }
{
    Item {
        what: What::Newline,
        opening: 1,
        scan: Scan::Done,
        refusal: 0,
    }
}

fn literal(kind: PpKind, quote: Quote) -> Item
    ensures { result ≡ item (What.Piece kind) 1 (Scan.Literal quote) 2 }
{
    Item {
        what: What::Piece(kind),
        opening: 1,
        scan: Scan::Literal(quote),
        refusal: 2,
    }
}

/// A punctuator of so many bytes, or a byte of no piece.
fn mark(length: usize) -> Item
    requires { length ≤ 4 }
    ensures item { result ≡ mark_item length }
    ensures opens { 1 ≤ result.opening }
    ensures few { result.opening ≤ 4 }
{
    if length == 0 {
        Item {
            what: What::Piece(PpKind::Punct),
            opening: 1,
            scan: Scan::Stuck,
            refusal: 3,
        }
    } else {
        piece(PpKind::Punct, length, Scan::Done)
    }
}

/// The item at four bytes, where it is no header name and no universal character name; 0 stands past the end.
fn plain_item(a: u8, b: u8, c: u8, d: u8) -> Item
    ensures item { result ≡ plain_item a b c d }
    ensures opens { 1 ≤ result.opening }
    ensures few { result.opening ≤ 4 }
{
    if a == b'\n' {
        newline()
    } else if is_blank(a) {
        gap(1, Scan::Done, 0)
    } else if a == b'/' && b == b'/' {
        gap(2, Scan::LineComment, 0)
    } else if a == b'/' && b == b'*' {
        gap(2, Scan::Comment, 1)
    } else if is_letter(a) {
        piece(PpKind::Word, 1, Scan::Word)
    } else if is_digit(a) {
        piece(PpKind::Number, 1, Scan::Number)
    } else if a == b'.' && is_digit(b) {
        piece(PpKind::Number, 2, Scan::Number)
    } else if a == b'\'' {
        literal(PpKind::Char, Quote::Char)
    } else if a == b'"' {
        literal(PpKind::Text, Quote::Text)
    } else {
        mark(mark_length(a, b, c, d))
    }
}

/// The word that begins with a universal character name, or a backslash alone; the text is that behind the backslash.
fn word_or_mark(behind: &Cursor) -> Item
    requires { length behind.now ≤ 4194304 }
    ensures item { result ≡ word_or_mark (bytes_of behind.now) }
    ensures opens { 1 ≤ result.opening }
    ensures few { result.opening ≤ 4 }
{
    if some_front(behind, Scan::Universal(Stem::Word)) {
        piece(PpKind::Word, 1, Scan::Universal(Stem::Word))
    } else {
        piece(PpKind::Punct, 1, Scan::Done)
    }
}

/// The item at the front of a text, where it is no header name.
fn ordinary_item(text: &Cursor) -> Item
    requires { length text.now ≤ 4194304 }
    ensures item { result ≡ ordinary_item (bytes_of text.now) }
    ensures opens { 1 ≤ result.opening }
    ensures few { result.opening ≤ 4 }
{
    let first = text.byte();
    let second = text.ahead(1);
    if first == b'\\' {
        return word_or_mark(&second);
    }
    let third = second.ahead(1);
    let fourth = third.ahead(1);
    plain_item(first, second.byte(), third.byte(), fourth.byte())
}

/// What a `<` opens behind `# include`, which this text follows: a header name, or what stands before a byte that none
/// may have.
fn angle_item(behind: &Cursor) -> Option<Item>
    requires { length behind.now ≤ 4194304 }
    ensures item { result ≡ angle_item (bytes_of behind.now) }
    ensures opens { MatchOption result (Unit {0}) (λ header. header.opening ≡ 1) }
{
    if some_front(behind, Scan::AngleHeader) {
        Some(piece(PpKind::Header, 1, Scan::AngleHeader))
    } else if some_front(behind, Scan::AngleLine) {
        Some(gap(1, Scan::Basic, 0))
    } else {
        None
    }
}

/// The header name at the front of a text (6.4.7), where one stands there that is not empty.
fn header_item(text: &Cursor) -> Option<Item>
    requires { length text.now ≤ 4194304 }
    ensures item { result ≡ header_item (byte_at (bytes_of text.now) 0)
        (byte_at (bytes_of text.now) 1) (drop 1 (bytes_of text.now)) }
    ensures opens { MatchOption result (Unit {0}) (λ header. header.opening ≡ 1) }
{
    let first = text.byte();
    let behind = text.ahead(1);
    let second = behind.byte();
    if first == b'<' && second != b'>' {
        angle_item(&behind)
    } else if first == b'"' && second != b'"' && some_front(&behind, Scan::QuoteHeader) {
        Some(piece(PpKind::Header, 1, Scan::QuoteHeader))
    } else {
        None
    }
}

/// The item at the front of a text that is not empty.
pub(crate) fn item_at(line: Line, text: &Cursor) -> Item
    requires { length text.now ≤ 4194304 }
    ensures item { result ≡ item_at line (bytes_of text.now) }
    ensures opens { 1 ≤ result.opening }
    ensures few { result.opening ≤ 4 }
{
    match line {
        Line::Include => match header_item(text) {
            Some(header) => header,
            None => ordinary_item(text),
        },
        _ => ordinary_item(text),
    }
}

impl Item {
    /// How many bytes it has at the front of a text, at most those that are left, or None where it does not end.
    pub(crate) fn size(self, text: &Cursor) -> Option<usize>
        requires short { length text.now ≤ 4194304 }
        requires opening { self.opening ≤ 4 }
        ensures { MatchOption result (NoneFits self.scan (bytes_of (drop self.opening text.now)))
            (λ size. HasSize self text.now size) }
    {
        let more = longest(&text.ahead(self.opening), self.scan)?;
        Some(self.opening + more)
    }
}
