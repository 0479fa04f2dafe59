//! The typed core of a set of translation units: types, expressions without effects, statements, functions with their
//! annotations, contracts, reports, and the layout of types.
#![tactic(auto)]

mod assignment;
mod contract;
mod expression;
mod expressions;
mod judge;
mod layout;
mod meaning;
mod note;
mod notes;
mod operator;
mod program;
mod report;
mod spelling;
mod statement;
mod statements;
mod types;

pub use assignment::assigned;
pub use contract::{Atom, Clause, ClauseKind, Compare, Contract, Guard, Location, Size};
pub use expression::CoreExpr;
pub use judge::Judge;
pub use layout::{Base, Layout, Spot};
pub use meaning::laws;
pub use note::{CoreArg, CoreNote, CoreSize, Declared};
pub use operator::{CompareOp, NumOp, SignOp, SizeBinary, SizeUnary};
pub use program::{Core, Function, Holds, Param, Slot, Table};
pub use report::{FunctionReport, Label, Noted, Warning};
pub use spelling::{SPELLINGS, spelling_position};
pub use statement::{CoreStmt, Entry, Section};
pub use types::{Kind, Member, TypeId, Types};
