//! The spellings that mean something to macros.
ghost use Rattle.std.specs.Prelude.{◌≡◌};
ghost use Rattle.sb_macro.specs.Marks.{is_hash, mark_of, mark_of_text};

use sb_base::{Name, Names};

/// What a spelling means to macros (C99 6.4.6, 6.10.3).
#[derive(Clone, Copy, PartialEq, Eq)]
pub enum Mark {
    /// `(`
    Open,
    /// `)`
    Close,
    /// `,`
    Comma,
    /// `...`
    Dots,
    /// `#`, `##` and their other spellings `%:`, `%:%:`
    Hash,
    Other,
}

fn mark_of_text(text: &[u8]) -> Mark
    ensures { result ≡ mark_of_text text.now }
{
    if text == b"(".as_slice() {
        Mark::Open
    } else if text == b")".as_slice() {
        Mark::Close
    } else if text == b",".as_slice() {
        Mark::Comma
    } else if text == b"...".as_slice() {
        Mark::Dots
    } else if is_hash(text) {
        Mark::Hash
    } else {
        Mark::Other
    }
}

fn is_hash(text: &[u8]) -> bool
    ensures { result ≡ is_hash text.now }
{
    text == b"#".as_slice()
        || text == b"##".as_slice()
        || text == b"%:".as_slice()
        || text == b"%:%:".as_slice()
}

/// What the spelling of a piece means. A number that the table lacks means nothing.
pub fn mark_of(names: &Names, text: Name) -> Mark
    ensures { result ≡ mark_of names.now.texts text }
{
    match names.text(text) {
        Some(spelling) => mark_of_text(spelling),
        None => Mark::Other,
    }
}
