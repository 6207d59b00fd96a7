// `run`: runs programs.
#![tactic(auto)]

use running::run_command;
use sources::{Failed, report, status, words_of_command};
use std::process::ExitCode;

fn begin(rt: &HostRuntime) -> Result<(), Failed> {
    let words = words_of_command(rt)?;
    run_command(rt, words.as_slice())
}

fn main(rt: HostRuntime) -> ExitCode {
    status(report(&rt, "run", begin(&rt)))
}
