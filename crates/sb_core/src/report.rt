//! What the checking of a function finds: needs that are not proved, and notes.
ghost use Rattle.std.specs.Prelude.{◌≡◌, []};
ghost use Rattle.sb_core.specs.Reports.{IsReport};

use sb_base::{Name, Place};
use sb_term::{Answer, Query, Sym};
use sqlite_items::Items;
use std::alloc::Global;

/// How a symbol is written: `n`, `b->cap` or `p.extent`.
#[derive(Drop)]
pub struct Label {
    pub sym: Sym,
    pub text: Items<u8>,
}

/// A need that is not proved: where, its number, the query with its answer, and the labels that the symbols of the query
/// have at that point.
#[derive(Drop)]
pub struct Warning {
    pub place: Place,
    pub number: u16,
    pub query: Query,
    pub answer: Answer,
    pub labels: Items<Label>,
}

/// A note: nothing can come behind this place.
#[derive(Clone, Copy)]
pub struct Noted {
    pub place: Place,
    pub number: u16,
}

/// The warnings and notes of a function, in the order in which they were found.
#[derive(Drop)]
pub struct FunctionReport {
    pub name: Name,
    pub warnings: Items<Warning>,
    pub notes: Items<Noted>,
}

impl FunctionReport {
    /// A report of a function without warnings and notes.
    pub fn new(alloc: Global, name: Name) -> FunctionReport
        ensures empty { result ≡ record { name = name; warnings = []; notes = [] } }
        ensures formed { IsReport result }
    {
        FunctionReport {
            name,
            warnings: Items::new(alloc),
            notes: Items::new(alloc),
        }
    }
}
