//! Readers of blocks and of the statements in which others stand (C99 6.8).
#![tactic(auto)]

mod blocks;
mod iteration;
mod labels;
mod selection;
mod statements;

pub use statements::block_within;
