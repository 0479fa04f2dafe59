//! The reader of annotations (SAL 2.0).
#![tactic(auto)]

mod arguments;
mod bearer;
mod lexemes;
mod locations;
mod nested;
mod spelling;
mod trees;

pub use bearer::Bearer;
pub use lexemes::{
    is_bare, is_listed_next, is_misplaced_next, is_note_next, is_unlisted_next, may_stand,
};
pub use nested::notes_within;
pub use sb_lexicon::{begins_note, is_listed, is_unlisted};
pub use sb_sign::Arguments;
pub use trees::NoteList;
