//! Text that is gathered without a result at each step.

use std::alloc::Global;
use std::fmt::Write;

/// Text that is gathered. Where memory runs out it is cut, and says so.
#[derive(Drop)]
pub struct Report {
    text: String,
    is_cut: bool,
}

impl Report {
    pub fn new(alloc: Global) -> Report {
        Report {
            text: String::new(alloc),
            is_cut: false,
        }
    }

    pub fn text(&self) -> &str {
        self.text.as_str()
    }

    pub fn is_cut(&self) -> bool {
        self.is_cut
    }

    /// Notes that memory ran out.
    pub fn cut(&mut self) {
        self.is_cut = true;
    }

    pub fn word(&mut self, word: &str) {
        if self.text.push_str(word).is_err() {
            self.is_cut = true;
        }
    }

    pub fn number(&mut self, number: i128) {
        if write!(self.text, "{number}").is_err() {
            self.is_cut = true;
        }
    }

    /// A byte, as cases spell it where it is no character of a line.
    fn byte(&mut self, byte: u8) {
        let written = if byte == b'\n' || byte == b' ' || byte.is_ascii_graphic() {
            self.text.push(byte as char).is_ok()
        } else {
            write!(self.text, "`x{byte:02X}").is_ok()
        };
        if !written {
            self.is_cut = true;
        }
    }

    pub fn bytes(&mut self, bytes: &[u8]) {
        for byte in bytes {
            self.byte(*byte);
        }
    }

    /// The one word or the other.
    pub fn choice(&mut self, holds: bool, word: &str, other: &str) {
        self.word(if holds { word } else { other });
    }

    /// A space before a word, unless one stands there.
    pub fn gap(&mut self) {
        if !matches!(self.text.as_bytes().last(), None | Some(b' ' | b'\n')) {
            self.word(" ");
        }
    }

    /// A space before a node of a tree, unless a bracket opens there.
    pub fn space(&mut self) {
        if !matches!(self.text.as_bytes().last(), Some(b'(' | b'[' | b'{' | b'@')) {
            self.gap();
        }
    }
}
