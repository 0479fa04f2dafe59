//! Preprocessing pieces: from the bytes of a file to words, numbers, literals, header names and punctuators
//! (C99 5.1.1.2, translation phases 1 to 3; 6.4).
#![tactic(auto)]

mod bytes;
mod cursor;
mod fronts;
mod item;
mod lexer;
mod lines;
mod piece;
mod scan;
mod spot;
mod values;

pub use lexer::lex;
pub use lines::laws;
pub use piece::PpToken;
pub use values::{character_value, is_literal, literal_bytes, number_value};
