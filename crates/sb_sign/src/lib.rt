//! What a token is to the grammar (C99 6.4): a keyword, a punctuator, an identifier, a constant or a string literal;
//! and which words are annotations (SAL 2.0).
#![tactic(auto)]

mod sign;
mod spelling;

pub use sign::{
    Keyword, Mark, is_keyword, is_mark, is_number, is_text, keyword_of, mark_of, name_of,
};
pub use spelling::{Arguments, arguments_in, begins_with, looks_like_note};
