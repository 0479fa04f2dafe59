//! How an expansion ends.

use sb_base::Place;
use sb_lex::PpToken;

/// How the expansion of a list ends.
#[derive(Clone, Copy)]
pub enum End {
    /// All of it is read.
    Whole,
    /// The last call has no `)` in the list: it is cut off there.
    Open,
    /// By this number at this place.
    Refused(u16, Place),
}

/// What the expansion of a list gives up to its end.
#[derive(Drop)]
pub struct Given {
    pub pieces: Vec<PpToken>,
    pub end: End,
}
