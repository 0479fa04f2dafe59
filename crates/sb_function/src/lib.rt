//! The grammar of the functions that are checked: what a token is to it, their trees, and the reading of a text of functions.
#![tactic(auto)]

mod files;
mod lexeme;
mod lexemes;
mod param_list;
mod params;
mod reading;
mod settling;
mod statements;
mod syntax;
mod words;
mod written;

pub use files::read_file;
pub use lexeme::{Lexeme, Piece};
pub use lexemes::pieces_of;
pub use reading::ReadFault;
pub use syntax::{Comparison, Function, Param, ParamKind, Simple, Statement};
