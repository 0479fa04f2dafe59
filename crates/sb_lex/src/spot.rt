//! A byte of a text and where it stands.
ghost use Rattle.std.specs.Prelude.{◌≡◌};

use sb_base::Place;

/// A byte of a text whose lines are spliced, with its physical line and its column in bytes, both from 1.
#[derive(Clone, Copy, PartialEq, Eq)]
pub struct Spot {
    pub byte: u8,
    pub line: u32,
    pub col: u32,
}

impl Spot {
    /// Its place in the file of this number.
    pub(crate) fn place(self, file: u32) -> Place
        ensures { result ≡ record { file = file; line = self.line; col = self.col } }
    {
        Place {
            file,
            line: self.line,
            col: self.col,
        }
    }
}
