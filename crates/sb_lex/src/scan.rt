//! How a piece, or white space, goes on from byte to byte.
ghost use Rattle.std.specs.Prelude.{◌≡◌, Option, if◌then◌else◌, nat_eq};
ghost use Rattle.sb_lex.specs.Items.{stem_scan, quote_byte, number_after, next_of, is_whole};

use crate::bytes::{is_basic, is_hex_digit, is_word_byte};

/// What a universal character name is part of (C99 6.4.3).
#[derive(Clone, Copy, PartialEq, Eq)]
pub enum Stem {
    Word,
    Number,
}

/// Which literal is read.
#[derive(Clone, Copy, PartialEq, Eq)]
pub enum Quote {
    Char,
    Text,
}

/// How far a piece, or white space, has been read.
#[derive(Clone, Copy, PartialEq, Eq)]
pub enum Scan {
    /// It is whole and goes on with nothing.
    Done,
    /// It is not whole and goes on with nothing.
    Stuck,
    /// In an identifier (6.4.2.1).
    Word,
    /// In a preprocessing number (6.4.8).
    Number,
    /// Behind an `e`, `E`, `p` or `P` of a preprocessing number, which a sign may follow.
    Exponent,
    /// Behind the backslash of a universal character name.
    Universal(Stem),
    /// In a universal character name: so many hexadecimal digits are missing, at least 1.
    Hex(Stem, u8),
    /// In a comment that ends with its line (6.4.9).
    LineComment,
    /// In a comment that ends with `*/` (6.4.9).
    Comment,
    /// Behind a `*` of such a comment.
    CommentStar,
    /// In a character constant or a string literal (6.4.4.4, 6.4.5).
    Literal(Quote),
    /// Behind a backslash of a literal.
    Escape(Quote),
    /// In a header name between `<` and `>` (6.4.7).
    AngleHeader,
    /// Behind a `<`, with its `>` to come in the line.
    AngleLine,
    /// In bytes of the basic set (5.2.1).
    Basic,
    /// In a header name between quotes.
    QuoteHeader,
}

impl Stem {
    /// In the word or number that a universal character name is part of.
    fn scan(self) -> Scan
        ensures { result ≡ stem_scan self }
    {
        match self {
            Stem::Word => Scan::Word,
            Stem::Number => Scan::Number,
        }
    }
}

impl Quote {
    /// The byte that begins and ends the literal.
    fn byte(self) -> u8
        ensures { result ≡ quote_byte self }
    {
        match self {
            Quote::Char => b'\'',
            Quote::Text => b'"',
        }
    }
}

/// How a preprocessing number goes on behind a byte that is no sign.
fn number_after(byte: u8) -> Option<Scan>
    ensures { result ≡ number_after byte }
{
    if byte == b'e' || byte == b'E' || byte == b'p' || byte == b'P' {
        Some(Scan::Exponent)
    } else if is_word_byte(byte) || byte == b'.' {
        Some(Scan::Number)
    } else if byte == b'\\' {
        Some(Scan::Universal(Stem::Number))
    } else {
        None
    }
}

fn word_after(byte: u8) -> Option<Scan>
    ensures { result ≡ next_of Scan.Word byte }
{
    if is_word_byte(byte) {
        Some(Scan::Word)
    } else if byte == b'\\' {
        Some(Scan::Universal(Stem::Word))
    } else {
        None
    }
}

fn universal_after(stem: Stem, byte: u8) -> Option<Scan>
    ensures { result ≡ next_of (Scan.Universal stem) byte }
{
    if byte == b'u' {
        Some(Scan::Hex(stem, 4))
    } else if byte == b'U' {
        Some(Scan::Hex(stem, 8))
    } else {
        None
    }
}

fn hex_after(stem: Stem, missing: u8, byte: u8) -> Option<Scan>
    ensures { result ≡ next_of (Scan.Hex stem missing) byte }
{
    if !is_hex_digit(byte) {
        None
    } else if missing <= 1 {
        Some(stem.scan())
    } else {
        Some(Scan::Hex(stem, missing - 1))
    }
}

fn comment_after(byte: u8) -> Option<Scan>
    ensures { result ≡ next_of Scan.Comment byte }
{
    if byte == b'*' {
        Some(Scan::CommentStar)
    } else {
        Some(Scan::Comment)
    }
}

fn literal_after(quote: Quote, byte: u8) -> Option<Scan>
    ensures { result ≡ next_of (Scan.Literal quote) byte }
{
    if byte == b'\n' {
        None
    } else if byte == b'\\' {
        Some(Scan::Escape(quote))
    } else if byte == quote.byte() {
        Some(Scan::Done)
    } else {
        Some(Scan::Literal(quote))
    }
}

fn angle_header_after(byte: u8) -> Option<Scan>
    ensures { result ≡ next_of Scan.AngleHeader byte }
{
    if byte == b'>' {
        Some(Scan::Done)
    } else if is_basic(byte) {
        Some(Scan::AngleHeader)
    } else {
        None
    }
}

fn angle_line_after(byte: u8) -> Option<Scan>
    ensures { result ≡ next_of Scan.AngleLine byte }
{
    if byte == b'\n' {
        None
    } else if byte == b'>' {
        Some(Scan::Done)
    } else {
        Some(Scan::AngleLine)
    }
}

fn basic_after(byte: u8) -> Option<Scan>
    ensures { result ≡ next_of Scan.Basic byte }
{
    if is_basic(byte) {
        Some(Scan::Basic)
    } else {
        None
    }
}

fn quote_header_after(byte: u8) -> Option<Scan>
    ensures { result ≡ next_of Scan.QuoteHeader byte }
{
    if byte == b'\n' {
        None
    } else if byte == b'"' {
        Some(Scan::Done)
    } else {
        Some(Scan::QuoteHeader)
    }
}

/// The state behind a byte that no newline may be.
fn within_line(byte: u8, scan: Scan) -> Option<Scan>
    ensures { result ≡ (if nat_eq byte 10 then None else Some scan) }
{
    if byte == b'\n' { None } else { Some(scan) }
}

impl Scan {
    /// How it goes on with a byte, or None where it does not.
    pub(crate) fn next(self, byte: u8) -> Option<Scan>
        ensures { result ≡ next_of self byte }
    {
        match self {
            Scan::Done | Scan::Stuck => None,
            Scan::Word => word_after(byte),
            Scan::Number => number_after(byte),
            Scan::Exponent if byte == b'+' || byte == b'-' => Some(Scan::Number),
            Scan::Exponent => number_after(byte),
            Scan::Universal(stem) => universal_after(stem, byte),
            Scan::Hex(stem, missing) => hex_after(stem, missing, byte),
            Scan::LineComment => within_line(byte, Scan::LineComment),
            Scan::Comment => comment_after(byte),
            Scan::CommentStar if byte == b'/' => Some(Scan::Done),
            Scan::CommentStar => comment_after(byte),
            Scan::Literal(quote) => literal_after(quote, byte),
            Scan::Escape(quote) => within_line(byte, Scan::Literal(quote)),
            Scan::AngleHeader => angle_header_after(byte),
            Scan::AngleLine => angle_line_after(byte),
            Scan::Basic => basic_after(byte),
            Scan::QuoteHeader => quote_header_after(byte),
        }
    }

    /// Whether it may end here.
    pub(crate) fn is_whole(self) -> bool
        ensures { result ≡ is_whole self }
    {
        match self {
            Scan::Done | Scan::Word | Scan::Number | Scan::Exponent | Scan::LineComment => true,
            Scan::Basic => true,
            _ => false,
        }
    }
}
