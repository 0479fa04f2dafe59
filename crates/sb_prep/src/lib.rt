//! The tokens of a unit: its directives carried out, with the files that it includes (C99 6.10).
#![tactic(auto)]

mod fault;
mod including;
mod state;
mod tokens;
mod units;

pub use fault::UnitFault;
pub use units::unit;
