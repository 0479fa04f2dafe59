//! The headers that `#include` names (C99 6.10.2), and those that are built in.
ghost use Rattle.std.specs.Prelude.{◌≡◌, [], ◌∷◌, ◌++◌, IfOk};
ghost use Rattle.std.specs.Option.{option_map};
ghost use Rattle.sb_directive.specs.Sources.{beginning_seen, closed_seen, header_seen, source_seen};
ghost use Rattle.sb_directive.specs.Headers as spec;
ghost use Rattle.sb_directive.specs.Headers.Header.{Angle, Quote};

use crate::lines::spelling;
use sb_base::{Names, Place, PpKind};
use sb_lex::PpToken;
use std::alloc::{AllocError, Global};

/// The SAL annotations are known without declarations.
const SAL: &[u8] = b"#pragma once\n";

/// C99 7.17, in part.
const STDDEF: &[u8] = b"#pragma once\n\
typedef unsigned long long size_t;\n\
#define NULL ((void *)0)\n";

/// C99 7.21, in part.
const STRING: &[u8] = b"#pragma once\n\
#include <stddef.h>\n\
void *memcpy(_Out_writes_bytes_all_(n) void *d, _In_reads_bytes_(n) const void *s, size_t n);\n\
void *memset(_Out_writes_bytes_all_(n) void *d, int c, size_t n);\n\
int memcmp(_In_reads_bytes_(n) const void *a, _In_reads_bytes_(n) const void *b, size_t n);\n\
size_t strlen(_In_z_ const char *s);\n\
int strcmp(_In_z_ const char *a, _In_z_ const char *b);\n";

/// C99 7.20, in part.
const STDLIB: &[u8] = b"#pragma once\n\
#include <stddef.h>\n\
_Ret_writes_bytes_maybenull_(n) __drv_allocatesMem(Mem) void *malloc(size_t n);\n";

/// The name of a header without its delimiters, which is not empty.
#[derive(Drop)]
pub enum HeaderName {
    /// Between `<` and `>`.
    Angle(Vec<u8>),
    /// Between quotes.
    Quote(Vec<u8>),
}

/// How the pieces of a line begin.
#[derive(Drop)]
pub enum Beginning {
    /// With this header, whose first piece stands there.
    Names(HeaderName, Place),
    /// As no header does, which is seen at the piece there.
    Bad(Place),
    /// As a header does, but they end before it does.
    Ends,
}

/// The name of a header before its `>`, and where that stands.
#[derive(Drop)]
pub struct Closed {
    pub text: Vec<u8>,
    pub closing: Place,
}

/// Where the text of a header comes from: its name as a file, and its text if it is built in. The name of one that is
/// built in stands between `<` and `>`.
#[derive(Drop)]
pub struct Source {
    pub name: Vec<u8>,
    pub text: Option<Vec<u8>>,
}

/// A spelling without its first and its last byte.
fn inside(text: &[u8]) -> &[u8]
    ensures inside { result.now ≡ spec.inside text.now }
{
    match text {
        [_, middle @ .., _] => middle,
        _ => b"".as_slice(),
    }
}

/// A name between `<`, which stands at `at`, and `>`.
fn angle_header(
    alloc: Global,
    name: &[u8],
    at: Place,
    closing: Place,
) -> Result<Beginning, AllocError>
    ensures beginning { IfOk result
        (λ found. beginning_seen found ≡ spec.named Angle at closing name.now) }
{
    if name.is_empty() {
        return Ok(Beginning::Bad(closing));
    }
    let name = Vec::from_slice(alloc, name)?;
    Ok(Beginning::Names(HeaderName::Angle(name), at))
}

/// A name between quotes, in a piece at `at`.
fn quote_header(alloc: Global, name: &[u8], at: Place) -> Result<Beginning, AllocError>
    ensures beginning { IfOk result
        (λ found. beginning_seen found ≡ spec.named Quote at at name.now) }
{
    if name.is_empty() {
        return Ok(Beginning::Bad(at));
    }
    let name = Vec::from_slice(alloc, name)?;
    Ok(Beginning::Names(HeaderName::Quote(name), at))
}

/// The header that a spelling with its delimiters names, in a piece at `at`.
fn header_spelled(alloc: Global, text: &[u8], at: Place) -> Result<Beginning, AllocError>
    ensures beginning { IfOk result
        (λ found. beginning_seen found ≡ spec.header_spelled at text.now) }
{
    match text {
        [] => Ok(Beginning::Bad(at)),
        [b'<', ..] => angle_header(alloc, inside(text), at, at),
        _ => quote_header(alloc, inside(text), at),
    }
}

/// What is kept of the white space before a piece.
fn space_before(piece: &PpToken) -> &'static [u8]
    ensures space { result.now ≡ spec.with_space piece.now.spaced [] }
{
    if piece.spaced {
        b" ".as_slice()
    } else {
        b"".as_slice()
    }
}

/// The spellings up to `>`, with a space where white space stood between; None where no `>` comes.
fn up_to_angle(
    alloc: Global,
    names: &Names,
    pieces: &[PpToken],
) -> Result<Option<Closed>, AllocError>
    ensures text { IfOk result
        (λ found. option_map closed_seen found ≡ spec.up_to_angle names.now.texts pieces.now) }
{
    let mut text = Vec::new(alloc);
    for piece in pieces {
        text.extend_from_slice(space_before(piece))?;
        let spelled = spelling(names, piece);
        if spelled == b">".as_slice() {
            return Ok(Some(Closed {
                text,
                closing: piece.place,
            }));
        }
        text.extend_from_slice(spelled)?;
    }
    Ok(None)
}

/// How pieces begin that stand behind `include`, once macros are replaced (C99 6.10.2): a header name, a string literal,
/// or `<`, pieces and `>`, whose spellings are joined with one space where white space stood between, name a header, which
/// has a byte between its delimiters. What stands behind it is passed over.
pub(crate) fn beginning_of(
    alloc: Global,
    names: &Names,
    pieces: &[PpToken],
) -> Result<Beginning, AllocError>
    ensures beginning { IfOk result
        (λ found. beginning_seen found ≡ spec.beginning names.now.texts pieces.now) }
{
    let Some((first, behind)) = pieces.split_first() else {
        return Ok(Beginning::Ends);
    };
    let text = spelling(names, first);
    match first.kind {
        PpKind::Header => header_spelled(alloc, text, first.place),
        PpKind::Text => quote_header(alloc, inside(text), first.place),
        PpKind::Punct if text == b"<".as_slice() => match up_to_angle(alloc, names, behind)? {
            Some(closed) => angle_header(alloc, &closed.text, first.place, closed.closing),
            None => Ok(Beginning::Ends),
        },
        _ => Ok(Beginning::Bad(first.place)),
    }
}

/// The text of the header of this name, where it is built in.
pub(crate) fn built_in(name: &[u8]) -> Option<&'static [u8]>
    ensures text { option_map (λ text. text.now) result ≡ spec.built_in name.now }
{
    if name == b"sal.h".as_slice() {
        Some(SAL)
    } else if name == b"stddef.h".as_slice() {
        Some(STDDEF)
    } else if name == b"string.h".as_slice() {
        Some(STRING)
    } else if name == b"stdlib.h".as_slice() {
        Some(STDLIB)
    } else {
        None
    }
}

/// The name between `<` and `>`.
fn between_angles(alloc: Global, name: &[u8]) -> Result<Vec<u8>, AllocError>
    ensures between { IfOk result (λ file. file.items ≡ (60 ∷ name.now) ++ (62 ∷ [])) }
{
    let mut file = Vec::new(alloc);
    file.push(b'<')?;
    file.extend_from_slice(name)?;
    file.push(b'>')?;
    Ok(file)
}

/// A file of the library.
fn file_of(alloc: Global, name: &[u8]) -> Result<Source, AllocError>
    ensures source { IfOk result (λ source. source_seen source ≡ spec.File name.now) }
{
    let name = Vec::from_slice(alloc, name)?;
    Ok(Source { name, text: None })
}

/// Where the text of a header comes from: one between `<` and `>` is built in if its name is known, and each other header
/// is a file of the library.
pub fn source_of(alloc: Global, header: &HeaderName) -> Result<Source, AllocError>
    ensures source { IfOk result
        (λ source. source_seen source ≡ spec.source_of (header_seen header.now)) }
{
    let name = match header {
        HeaderName::Quote(name) => return file_of(alloc, name),
        HeaderName::Angle(name) => name,
    };
    let Some(text) = built_in(name) else {
        return file_of(alloc, name);
    };
    let text = Vec::from_slice(alloc, text)?;
    Ok(Source {
        name: between_angles(alloc, name)?,
        text: Some(text),
    })
}
