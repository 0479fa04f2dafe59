//! Where something stands in the source, and how a reader refuses it.

/// A place in a file: the file's number, its physical line and the byte in that line.
///
/// Lines and columns count from 1. A file that could not be read whole has line 0 and column 0.
#[derive(Clone, Copy, PartialEq, Eq)]
pub struct Place {
    pub file: u32,
    pub line: u32,
    pub col: u32,
}

/// A refusal: the number of the rule that the source breaks, where it breaks it, and which feature it uses.
///
/// `feature` is the place of the feature in the list of those that are refused, for the one rule that
/// names a feature, and 0 for each other rule.
#[derive(Clone, Copy, PartialEq, Eq)]
pub struct Refusal {
    pub number: u16,
    pub place: Place,
    pub feature: u16,
}

/// Why a reader stopped: the source is refused, or memory ran out.
#[derive(Clone, Copy, PartialEq, Eq)]
pub enum Stop {
    Refused(Refusal),
    Memory,
}
