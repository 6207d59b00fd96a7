// Does what the command lines of its standard input ask of `run`, one after the other, and says how each ended.
#![tactic(auto)]

use running::run_command;
use sources::{Failed, report, status};
use std::alloc::Global;
use std::io::{BufRead, BufReader};
use std::process::ExitCode;

// The words of a command line.
fn words_of(heap: Global, line: &str) -> Result<Vec<String>, Failed> {
    let mut words = Vec::new(heap);
    for word in line.split_whitespace() {
        words.push(String::from_str(heap, word)?)?;
    }
    Ok(words)
}

// One command line.
fn try_line(rt: &HostRuntime, line: &str) -> Result<(), Failed> {
    println!(rt; "$ run {line}")?;
    let words = words_of(rt.alloc(), line)?;
    match report(rt, "run", run_command(rt, words.as_slice())) {
        Ok(()) => println!(rt; "status 0")?,
        Err(_) => println!(rt; "status 1")?,
    }
    Ok(())
}

fn run(rt: &HostRuntime) -> Result<(), Failed> {
    for line in BufReader::new(rt.alloc(), rt.stdin())?.lines(rt.alloc()) {
        try_line(rt, line?.as_str())?;
    }
    Ok(())
}

fn main(rt: HostRuntime) -> ExitCode {
    status(report(&rt, "run_cases", run(&rt)))
}
