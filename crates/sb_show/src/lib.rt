//! What the programs of cases share: lists of cases, reports, and trees of C's syntax as text.
#![tactic(auto)]

mod block;
mod declarations;
mod expressions;
mod files;
mod parts;
mod printing;
mod report;
mod running;
mod statements;
mod type_names;
mod words;

pub use block::{Block, spelled};
pub use files::{calls, library};
pub use parts::Part;
pub use printing::{put_part, put_place, put_text, put_valued};
pub use report::Report;
pub use running::{Stages, run};
