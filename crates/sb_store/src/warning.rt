//! Warnings: conditions that are not proved.
ghost use Rattle.std.specs.Prelude.{◌≡◌};

use sb_base::Place;
use sb_picture::Label;
use sb_term::{Answer, Query};
use sqlite_items::Items;

/// What a store needs and is not proved.
#[derive(Clone, Copy, PartialEq, Eq)]
pub enum Need {
    Present,
    Known,
    FromStart,
    BeforeEnd,
}

/// A need that is not proved: where, the query with its answer, and the labels of the symbols at that point.
#[derive(Drop)]
pub struct Warning {
    pub place: Place,
    pub need: Need,
    pub query: Query,
    pub answer: Answer,
    pub labels: Items<Label>,
}

impl Need {
    ghost use Rattle.sb_store.specs.Reports.{number_of, text_of};

    /// The number of the warning.
    pub fn number(self) -> u16
        ensures { result ≡ number_of self }
    {
        match self {
            Need::Present => 101,
            Need::Known => 102,
            Need::FromStart => 103,
            Need::BeforeEnd => 104,
        }
    }

    /// The words of the warning.
    pub fn text(self) -> &'static str
        ensures { result.now ≡ text_of self }
    {
        match self {
            Need::Present => "may be null",
            Need::Known => "target not known",
            Need::FromStart => "before the start",
            Need::BeforeEnd => "past the end",
        }
    }
}
