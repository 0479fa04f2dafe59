//! The readers of C's grammar with SAL annotations, as a caller has them: expressions, type names, annotations and
//! translation units, with what each answer says of the texts of the grammar.
#![tactic(auto)]

mod annotations;
mod expressions;
mod units;

pub use annotations::notes;
pub use expressions::{expr, type_name};
pub use units::tree;
