//! The values of integer constants (C99 6.4.4.1), character constants (6.4.4.4) and string literals (6.4.5).

ghost use Rattle.std.specs.Prelude.{◌≡◌, ◌↔◌, true, false, ℕ, ◌<◌, ◌≤◌, ◌^◌, ◌++◌, List, [], ◌∷◌, Option, IsTrue, IfSome, IfNone, IfOk, MatchOption, length};
ghost use Rattle.std.specs.Option.{option_map, option_copied};
ghost use Rattle.sb_lex.specs.Values as spec;

use sb_base::PpKind;
use std::alloc::{AllocError, Global};

/// The base of the digits of a number.
#[derive(Clone, Copy, PartialEq, Eq)]
pub enum Base {
    Octal,
    Decimal,
    Hexadecimal,
}

fn radix(base: Base) -> u32
    ensures radix { result ≡ spec.radix_of base }
{
    match base {
        Base::Octal => 8,
        Base::Decimal => 10,
        Base::Hexadecimal => 16,
    }
}

fn is_digit(base: Base, byte: u8) -> bool
    ensures digit { result ≡ spec.is_digit_of base byte }
{
    (byte as char).is_digit(radix(base))
}

/// How many bytes a text begins with that are digits of the base.
fn digit_count(base: Base, text: &[u8]) -> usize
    ensures count { result ≡ spec.run_of base text.now }
    ensures within { result ≤ length text.now }
{
    text.iter()
        .take_while(|byte| is_digit(base, **byte))
        .count()
}

/// The number that a text spells; None where a byte is no digit of the base, or the number is 2^64 or more.
fn spelled_number(base: Base, text: &[u8]) -> Option<u64>
    ensures number { result ≡ spec.spelled (2 ^ 64) base text.now }
{
    let radix = radix(base);
    let mut number: u64 = 0;
    for byte in text {
        let digit = (*byte as char).to_digit(radix)?;
        number = number.checked_mul(radix as u64)?.checked_add(digit as u64)?;
    }
    Some(number)
}

fn is_unsigned(byte: Option<&u8>) -> bool
    ensures unsigned { result ≡ spec.is_unsigned (option_copied byte.entry) }
{
    match byte {
        Some(byte) => *byte == b'u' || *byte == b'U',
        None => false,
    }
}

fn is_long_or_none(text: &[u8]) -> bool
    ensures long { result ≡ spec.is_long_or_none text.now }
{
    text == b"".as_slice()
        || text == b"l".as_slice()
        || text == b"L".as_slice()
        || text == b"ll".as_slice()
        || text == b"LL".as_slice()
}

fn is_suffix(text: &[u8]) -> bool
    ensures suffix { result ≡ spec.is_suffix text.now }
{
    if is_unsigned(text.first()) {
        is_long_or_none(&text[1..])
    } else if is_unsigned(text.last()) {
        is_long_or_none(&text[..text.len() - 1])
    } else {
        is_long_or_none(text)
    }
}

/// The base of an integer constant, by what it begins with.
fn base_of(text: &[u8]) -> Base
    ensures base { result ≡ spec.base_of text.now }
{
    match text {
        [b'0', b'x' | b'X', ..] => Base::Hexadecimal,
        [b'0', ..] => Base::Octal,
        _ => Base::Decimal,
    }
}

fn suffixed_number(base: Base, body: &[u8]) -> Option<u64>
    ensures number { result ≡ spec.suffixed base body.now }
{
    let count = digit_count(base, body);
    let (digits, suffix) = body.split_at(count);
    if count == 0 {
        None
    } else if is_suffix(suffix) {
        spelled_number(base, digits)
    } else {
        None
    }
}

/// The value of an integer constant (C99 6.4.4.1), also of a decimal one from 2^63 on without a suffix `u`.
/// None where the text is no integer constant, or its value is 2^64 or more.
pub fn number_value(text: &[u8]) -> Option<u64>
    ensures number { result ≡ spec.number_of text.now }
{
    match base_of(text) {
        Base::Hexadecimal => suffixed_number(Base::Hexadecimal, &text[2..]),
        base => suffixed_number(base, text),
    }
}

/// The byte that a simple escape names, by the one behind its backslash.
fn simple_escape(byte: u8) -> Option<u8>
    ensures byte { result ≡ spec.simple_escape byte }
{
    match byte {
        b'\'' | b'"' | b'?' | b'\\' => Some(byte),
        b'a' => Some(7),
        b'b' => Some(8),
        b'f' => Some(12),
        b'n' => Some(10),
        b'r' => Some(13),
        b't' => Some(9),
        b'v' => Some(11),
        _ => None,
    }
}

/// The byte of a universal character name (C99 6.4.3) by its number.
fn universal_byte(number: u64) -> Option<u8>
    ensures byte { result ≡ spec.universal_byte number }
{
    match number {
        0x24 | 0x40 | 0x60 | 160..=255 => Some(number as u8),
        _ => None,
    }
}

/// The byte that digits spell; None where their number is above 255.
fn spelled_byte(base: Base, text: &[u8]) -> Option<u8>
    ensures byte { result ≡ spec.spelled 256 base text.now }
{
    let number = spelled_number(base, text)?;
    if number < 256 {
        Some(number as u8)
    } else {
        None
    }
}

/// The byte of as many digits as `text` begins with, at most `most`, and the text behind them.
fn numeric_escape(base: Base, most: usize, text: &[u8]) -> Option<(u8, &[u8])>
    ensures byte { option_map (λ c. (c.0, c.1.now)) result
        ≡ spec.numeric_escape base most text.now }
    ensures shorter { IfSome result (λ c. length c.1.now ≤ length text.now) }
{
    let digits = &text[..most.min(text.len())];
    let count = digit_count(base, digits);
    if count == 0 {
        return None;
    }
    let (digits, rest) = text.split_at(count);
    let byte = spelled_byte(base, digits)?;
    Some((byte, rest))
}

/// The byte of a universal character name of so many digits, and the text behind them.
fn universal_name(count: usize, text: &[u8]) -> Option<(u8, &[u8])>
    ensures byte { option_map (λ c. (c.0, c.1.now)) result ≡ spec.universal_name count text.now }
    ensures shorter { IfSome result (λ c. length c.1.now ≤ length text.now) }
{
    if text.len() < count {
        return None;
    }
    let (digits, rest) = text.split_at(count);
    let number = spelled_number(Base::Hexadecimal, digits)?;
    let byte = universal_byte(number)?;
    Some((byte, rest))
}

/// What stands behind a backslash: the byte that the escape names, and the text behind it.
fn escape(text: &[u8]) -> Option<(u8, &[u8])>
    ensures byte { option_map (λ c. (c.0, c.1.now)) result ≡ spec.escape text.now }
    ensures shorter { IfSome result (λ c. length c.1.now ≤ length text.now) }
{
    let (first, rest) = text.split_first()?;
    if *first == b'x' {
        numeric_escape(Base::Hexadecimal, rest.len(), rest)
    } else if *first == b'u' {
        universal_name(4, rest)
    } else if *first == b'U' {
        universal_name(8, rest)
    } else if is_digit(Base::Octal, *first) {
        numeric_escape(Base::Octal, 3, text)
    } else {
        let byte = simple_escape(*first)?;
        Some((byte, rest))
    }
}

/// The character that `text` begins with (C99 6.4.4.4): the byte that it names, and the text behind it.
fn first_character(text: &[u8]) -> Option<(u8, &[u8])>
    ensures byte { option_map (λ c. (c.0, c.1.now)) result ≡ spec.character text.now }
    ensures shorter { IfSome result (λ c. length c.1.now < length text.now) }
{
    let (first, rest) = text.split_first()?;
    if *first == b'\\' {
        escape(rest)
    } else {
        Some((*first, rest))
    }
}

/// What stands between two quotes; None where the text has not both.
fn inside_quotes(quote: u8, text: &[u8]) -> Option<&[u8]>
    ensures some { IfSome result (λ body. text.now ≡ quote ∷ (body.now ++ quote ∷ [])) }
    ensures none { IfNone result ((body : List ℕ) → text.now ≡ quote ∷ (body ++ quote ∷ []) → ⊥) }
{
    let (first, rest) = text.split_first()?;
    let (last, body) = rest.split_last()?;
    if *first == quote && *last == quote {
        Some(body)
    } else {
        None
    }
}

/// The value of a plain `char`, which is signed, converted to `int`: a negative one plus 2^64.
fn char_value(byte: u8) -> u64
    ensures value { result ≡ spec.char_value byte }
{
    if byte < 128 {
        byte as u64
    } else {
        byte as u64 + (u64::MAX - 255)
    }
}

/// The value of a character constant, with its quotes (C99 6.4.4.4): that of a plain `char`, which is signed,
/// converted to `int`, and a negative one plus 2^64. None where the text is no constant of one character.
pub fn character_value(text: &[u8]) -> Option<u64>
    ensures some { IfSome result (spec.IsCharacter text.now) }
    ensures none { IfNone result ((value : ℕ) → spec.IsCharacter text.now value → ⊥) }
    ensures only { (value other : ℕ) → spec.IsCharacter text.now value
        → spec.IsCharacter text.now other → value ≡ other }
{
    let body = inside_quotes(b'\'', text)?;
    let (byte, rest) = first_character(body)?;
    if rest.is_empty() {
        Some(char_value(byte))
    } else {
        None
    }
}

/// Whether the text is a string literal, with its quotes, of which each character names a byte (C99 6.4.5).
pub fn is_literal(text: &[u8]) -> bool
    ensures literal { IsTrue result ↔ ((bytes : List ℕ) × spec.IsText text.now bytes) }
{
    let Some(body) = inside_quotes(b'"', text) else {
        return false;
    };
    are_characters(body)
}

fn are_characters(text: &[u8]) -> bool
    ensures characters { IsTrue result ↔ ((bytes : List ℕ) × spec.Characters text.now bytes) }
{
    let mut rest = text;
    'characters: while !rest.is_empty() {
        let Some((_byte, behind)) = first_character(rest) else {
            return false;
        };
        rest = behind;
    }
    true
}

/// The bytes that the characters of a text name; None where one is bad.
fn character_bytes(alloc: Global, text: &[u8]) -> Result<Option<Vec<u8>>, AllocError>
    ensures characters { IfOk result
        (λ found. MatchOption found ((bytes : List ℕ) → spec.Characters text.now bytes → ⊥)
        (λ v. spec.Characters text.now v.items)) }
{
    let mut bytes = Vec::new(alloc);
    let mut rest = text;
    'characters: while !rest.is_empty() {
        let Some((byte, behind)) = first_character(rest) else {
            return Ok(None);
        };
        bytes.push(byte)?;
        rest = behind;
    }
    Ok(Some(bytes))
}

/// The bytes that a string literal names, with its quotes (C99 6.4.5), without the zero behind them.
/// None where the text is no literal or one of its characters names no byte.
pub fn literal_bytes(alloc: Global, text: &[u8]) -> Result<Option<Vec<u8>>, AllocError>
    ensures literal { IfOk result
        (λ found. MatchOption found ((bytes : List ℕ) → spec.IsText text.now bytes → ⊥)
        (λ v. spec.IsText text.now v.items)) }
    ensures only { (bytes others : List ℕ) → spec.IsText text.now bytes
        → spec.IsText text.now others → bytes ≡ others }
{
    match inside_quotes(b'"', text) {
        Some(body) => character_bytes(alloc, body),
        None => Ok(None),
    }
}

/// Whether a character constant has a value.
fn is_character(text: &[u8]) -> bool
    ensures value { result ≡ true → (value : ℕ) × spec.IsCharacter text.now value }
    ensures none { result ≡ false → (value : ℕ) → spec.IsCharacter text.now value → ⊥ }
{
    match character_value(text) {
        Some(_) => true,
        None => false,
    }
}

/// Whether a piece has a value, where its kind asks for one.
pub(crate) fn has_value(kind: PpKind, text: &[u8]) -> bool
    ensures value { result ≡ true → spec.HasValue kind text.now }
    ensures none { result ≡ false → (spec.HasValue kind text.now → ⊥) }
{
    match kind {
        PpKind::Number => number_value(text).is_some(),
        PpKind::Char => is_character(text),
        PpKind::Text => is_literal(text),
        PpKind::Word | PpKind::Header | PpKind::Punct => true,
    }
}
