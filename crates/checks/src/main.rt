//! The program of the cases of whole commands, and of what stands under them: tables, libraries, sinks, terms and queries.
#![tactic(auto)]

mod deciding;
mod program;
mod stages;
mod tables;

use stages::CommandStages;
use std::process::ExitCode;

fn main(rt: HostRuntime) -> ExitCode {
    sb_show::run(&rt, &CommandStages)
}
