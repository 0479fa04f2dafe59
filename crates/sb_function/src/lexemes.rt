//! The words and marks that tokens are, as the grammar reads them (C99 6.4).
ghost use Rattle.std.specs.Prelude.{◌≡◌, IfOk};
ghost use Rattle.sb_function.specs.Lexemes as spec;

use crate::lexeme::{Lexeme, Piece};
use sb_base::{Name, Names, PpKind, Token};
use std::alloc::{AllocError, Global};

/// How a token is spelled; nothing where the table lacks its number.
fn spelling_of<'a>(names: &'a Names, token: &Token) -> &'a [u8]
    ensures { result.now ≡ spec.spelling_of names.now.texts token.now }
{
    match names.text(token.text) {
        Some(text) => text,
        None => b"".as_slice(),
    }
}

/// A word of the grammar, or a word that the table of names has under this number.
fn word_of(name: Name, text: &[u8]) -> Lexeme
    ensures { result ≡ spec.word_of name text.now }
{
    if text == b"void".as_slice() {
        Lexeme::Void
    } else if text == b"int".as_slice() {
        Lexeme::Int
    } else if text == b"unsigned".as_slice() {
        Lexeme::Unsigned
    } else if text == b"if".as_slice() {
        Lexeme::If
    } else if text == b"_Out_writes_".as_slice() {
        Lexeme::OutWrites
    } else {
        Lexeme::Named(name)
    }
}

/// A constant below 2^31 that is spelled as its value in decimal (6.4.4.1).
fn constant_of(alloc: Global, value: u64, text: &[u8]) -> Result<Lexeme, AllocError>
    ensures { IfOk result (λ lexeme. lexeme ≡ spec.constant_of value text.now) }
{
    if value >= 1 << 31 {
        return Ok(Lexeme::Other);
    }
    let decimal = format!(in alloc; "{value}")?;
    if decimal.as_bytes() == text {
        Ok(Lexeme::Number(value as u32))
    } else {
        Ok(Lexeme::Other)
    }
}

/// A mark of one byte.
fn short_mark_of(text: &[u8]) -> Lexeme
    ensures { result ≡ spec.short_mark_of text.now }
{
    match text {
        b"(" => Lexeme::OpenParenthesis,
        b")" => Lexeme::CloseParenthesis,
        b"{" => Lexeme::OpenBrace,
        b"}" => Lexeme::CloseBrace,
        b"[" => Lexeme::OpenBracket,
        b"]" => Lexeme::CloseBracket,
        b"," => Lexeme::Comma,
        b";" => Lexeme::Semicolon,
        b"=" => Lexeme::Assign,
        b"*" => Lexeme::Star,
        b"<" => Lexeme::Less,
        b">" => Lexeme::Greater,
        _ => Lexeme::Other,
    }
}

/// A mark of two bytes; a digraph is the bracket or brace that it stands for (6.4.6 paragraph 3).
fn long_mark_of(text: &[u8]) -> Option<Lexeme>
    ensures { result ≡ spec.long_mark_of text.now }
{
    match text {
        b"<=" => Some(Lexeme::AtMost),
        b">=" => Some(Lexeme::AtLeast),
        b"==" => Some(Lexeme::Equal),
        b"!=" => Some(Lexeme::NotEqual),
        b"<:" => Some(Lexeme::OpenBracket),
        b":>" => Some(Lexeme::CloseBracket),
        b"<%" => Some(Lexeme::OpenBrace),
        b"%>" => Some(Lexeme::CloseBrace),
        _ => None,
    }
}

fn mark_of(text: &[u8]) -> Lexeme
    ensures { result ≡ spec.mark_of text.now }
{
    long_mark_of(text).unwrap_or_else(|| short_mark_of(text))
}

/// The word or mark that a token is.
fn lexeme_of(alloc: Global, names: &Names, token: &Token) -> Result<Lexeme, AllocError>
    ensures { IfOk result (λ lexeme. lexeme ≡ spec.lexeme_of names.now.texts token.now) }
{
    let text = spelling_of(names, token);
    match token.kind {
        PpKind::Word => Ok(word_of(token.text, text)),
        PpKind::Number => constant_of(alloc, token.value, text),
        PpKind::Punct => Ok(mark_of(text)),
        PpKind::Char | PpKind::Text | PpKind::Header => Ok(Lexeme::Other),
    }
}

/// The words and marks that the tokens of a unit are, each at its place.
pub fn pieces_of(alloc: Global, names: &Names, tokens: &[Token]) -> Result<Vec<Piece>, AllocError>
    ensures { IfOk result (λ pieces. pieces.items ≡ spec.pieces_of names.now.texts tokens.now) }
{
    let mut pieces = Vec::new(alloc);
    for token in tokens {
        let lexeme = lexeme_of(alloc, names, token)?;
        let place = token.place;
        pieces.push(Piece { lexeme, place })?;
    }
    Ok(pieces)
}
