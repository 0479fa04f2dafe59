//! Macros and their expansion (C99 6.10.3, without `#`, `##` and variable arguments).
//!
//! `specs/Expansion.antt` says what a text expands to and when it is refused, `specs/Endings.antt` what it gives before,
//! `specs/Defines.antt` what a line defines. proofs/EndingLaws.antt has `one_end`, that this is one list and one end.
//! proofs/ExpansionLaws.antt has the laws `one_expansion`, that a list of tokens has one expansion, `exclusive`, that a
//! refused list has none, and `one_stop`, that it is refused with one number at one place; `Macros::expand` gives them
//! as its clause `only`. proofs/GivenPlaces.antt has that all that an expansion gives, and its refusal, stand at pieces
//! of the text. proofs/DefiningLaws.antt has `definition_reads` and `defines_read`: a line is read as a definition
//! exactly where it is one; proofs/DefiningOnce.antt, that it defines one table or is refused once.
#![tactic(auto)]

mod arguments;
mod definitions;
mod ending;
mod expansion;
mod halt;
mod lines;
mod marked;
mod marks;
mod replacing;
mod stored;
mod table;

pub use ending::{End, Given};
pub use table::Macros;
