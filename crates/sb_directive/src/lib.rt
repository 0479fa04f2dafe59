//! The lines of directives: what each asks for, which groups are read, and which header it names (C99 6.10).
#![tactic(auto)]

mod asks;
mod branches;
mod conditions;
mod defined;
mod directive;
mod headers;
mod lines;
mod refusal;
mod rules;
mod sections;
mod seeking;

pub use asks::{Asks, asks_of};
pub use branches::{Branches, new_branch, next_group};
pub use conditions::truth;
pub use directive::{Branch, Directive};
pub use headers::{HeaderName, Source, source_of};
pub use lines::{begins_directive, behind_word, end_of, part_size, place_of, spelling};
pub use refusal::stop_at;
pub use rules::{MOST_TOKENS, Rules};
pub use sections::laws;
pub use seeking::{SoughtHeader, seek};
