//! What a store needs, what it leaves of a picture, and the warnings of what is not proved.
#![tactic(auto)]

mod cells;
mod needs;
mod prefixes;
mod reports;
mod stores;
mod target;
mod warning;
mod writing;

pub use reports::Report;
pub use stores::store;
pub use warning::{Need, Warning};
