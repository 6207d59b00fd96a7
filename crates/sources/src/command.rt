// The command line, and the end of a program.
use crate::failed::Failed;
use std::env;
use std::process::ExitCode;

// The words after the program's name.
pub fn words_of_command(rt: &HostRuntime) -> Result<Vec<String>, Failed> {
    let mut words = Vec::new(rt.alloc());
    for word in env::args(rt)?.skip(1) {
        words.push(word)?;
    }
    Ok(words)
}

// Says what was not said yet of why a program ends with status 1.
pub fn report(rt: &HostRuntime, reader: &str, end: Result<(), Failed>) -> Result<(), Failed> {
    match end {
        Ok(()) => Ok(()),
        Err(Failed::Io(e)) => {
            let _ = eprintln!(rt; "{reader}: {e}");
            Err(Failed::Said)
        }
        Err(Failed::Memory) => {
            let _ = eprintln!(rt; "{reader}: there is no memory left");
            Err(Failed::Said)
        }
        Err(Failed::Said) => Err(Failed::Said),
    }
}

// The status that a program ends with: 0, or 1 where it failed.
pub fn status(end: Result<(), Failed>) -> ExitCode {
    match end {
        Ok(()) => ExitCode::SUCCESS,
        Err(_) => ExitCode::FAILURE,
    }
}
