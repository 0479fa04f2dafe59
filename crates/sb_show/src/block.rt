//! The form of a list of cases: blocks, their lines and files, and how bytes are spelled in them.
//!
//! A block begins with `== ` and its words: the stage, and what the stage is told. Each line below is a case. Files of the
//! block follow, each with its name behind `-- `. Text ends before the end of its last line. A backquote spells what a line
//! cannot hold: `n` behind it a new line, `q` a backquote, `x` and two digits a byte, `_` in a file the line of the case,
//! and `*N TEXT`, up to the next backquote with a period, a text N times.

use std::alloc::{AllocError, Global};

/// A block of cases.
#[derive(Clone, Copy)]
pub struct Block<'a> {
    /// Its words.
    pub words: &'a str,
    /// Its lines.
    pub lines: &'a str,
    /// Its files, each with its name on the first line, cut where a line begins with `-- `.
    pub files: Option<&'a str>,
}

impl<'a> Block<'a> {
    pub fn new(text: &'a str) -> Block<'a> {
        let (head, files) = match text.split_once("\n-- ") {
            Some((head, files)) => (head, Some(files)),
            None => (text, None),
        };
        let (words, lines) = head.split_once('\n').unwrap_or((head, ""));
        Block {
            words,
            lines,
            files,
        }
    }

    /// Word `index` from 0, or nothing.
    pub fn word(&self, index: usize) -> &'a str {
        self.words.split(' ').nth(index).unwrap_or("")
    }

    /// The number that word `index` is, and else `otherwise`.
    pub fn number(&self, index: usize, otherwise: u32) -> u32 {
        self.word(index).parse::<u32>().unwrap_or(otherwise)
    }
}

/// The bytes that a text of a block spells, with those of the case in its holes.
pub fn spelled(alloc: Global, text: &str, case: &[u8]) -> Result<Vec<u8>, AllocError> {
    let mut bytes = Vec::new(alloc);
    for (index, part) in text.split('`').enumerate() {
        if index == 0 {
            bytes.extend_from_slice(part.as_bytes())?;
        } else {
            add_spelled(&mut bytes, part, case)?;
        }
    }
    Ok(bytes)
}

/// Adds the bytes that a text behind a backquote spells.
fn add_spelled(bytes: &mut Vec<u8>, text: &str, case: &[u8]) -> Result<(), AllocError> {
    if let Some(rest) = text.strip_prefix('n') {
        bytes.push(b'\n')?;
        bytes.extend_from_slice(rest.as_bytes())
    } else if let Some(rest) = text.strip_prefix('q') {
        bytes.push(b'`')?;
        bytes.extend_from_slice(rest.as_bytes())
    } else if let Some(rest) = text.strip_prefix('_') {
        bytes.extend_from_slice(case)?;
        bytes.extend_from_slice(rest.as_bytes())
    } else if let Some(rest) = text.strip_prefix('*') {
        add_repeated(bytes, rest)
    } else if let Some(rest) = text.strip_prefix('x') {
        add_byte(bytes, rest)
    } else {
        bytes.extend_from_slice(text.strip_prefix('.').unwrap_or(text).as_bytes())
    }
}

/// `N TEXT`: the text N times.
fn add_repeated(bytes: &mut Vec<u8>, text: &str) -> Result<(), AllocError> {
    let (count, rest) = text.split_once(' ').unwrap_or((text, ""));
    for _turn in 0..count.parse::<u32>().unwrap_or(0) {
        bytes.extend_from_slice(rest.as_bytes())?;
    }
    Ok(())
}

/// Two hexadecimal digits, and what stands behind them.
fn add_byte(bytes: &mut Vec<u8>, text: &str) -> Result<(), AllocError> {
    let digits = text.get(..2).unwrap_or("");
    bytes.push(u8::from_str_radix(digits, 16).unwrap_or(b'?'))?;
    bytes.extend_from_slice(text.get(2..).unwrap_or("").as_bytes())
}
