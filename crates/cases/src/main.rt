//! The program of the cases of texts: pieces, macros, conditions, units, and the trees of C's grammar.
#![tactic(auto)]

mod conditions;
mod macros;
mod pieces;
mod stages;
mod trees;
mod units;

use stages::TextStages;
use std::process::ExitCode;

fn main(rt: HostRuntime) -> ExitCode {
    sb_show::run(&rt, &TextStages)
}
