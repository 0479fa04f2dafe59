//! Where a store goes.

use sb_picture::{Cell, Region};
use sb_term::Term;
use sqlite_items::Items;

/// A region by its number, with an offset in bytes.
#[derive(Drop)]
pub struct Target {
    pub at: usize,
    pub region: Region,
    pub offset: Term,
}

/// The cells after a store, and where it ends unless that passes the limits.
#[derive(Drop)]
pub struct Written {
    pub cells: Items<Cell>,
    pub end: Option<Term>,
}
