// `judge`: says whether a program keeps to its conversations.
#![tactic(auto)]

mod answers;
mod options;
mod texts;

use answers::{Judging, print_text_of};
use options::{Wanted, read_options};
use sources::{Failed, Source, answer_lines, report, status, words_of_command};
use std::process::ExitCode;
use texts::{judge_text, print_rows};

const HELP: &str = "judge: says whether a program keeps to its conversations

  judge [FILE]               reads the text of a program and prints `keeps`, `careless` or `no program`;
                             status 0 only if it keeps
  judge --rows [FILE]        reads rows: each line is one program, as decimal words between blanks, and is
                             answered by one line; status 0 if all lines could be answered
  judge --print-rows [FILE]  prints the rows of a text as one line
  judge --print-text [FILE]  reads the rows of one program, and prints it as text with invented names
  judge --help               prints this

Without FILE, or where FILE is -, the standard input is read. A text that cannot be read is answered by
FILE:LINE:COLUMN: on standard error, with what is wrong and what to write instead, and by status 1.";

// A source of this program's.
fn source(path: &str) -> Source<'_> {
    Source {
        reader: "judge",
        path,
    }
}

fn run(rt: &HostRuntime) -> Result<(), Failed> {
    let words = words_of_command(rt)?;
    match read_options(rt, words.as_slice())? {
        Wanted::Help => {
            println!(rt; "{HELP}")?;
            Ok(())
        }
        Wanted::Judge(path) => judge_text(rt, source(path)),
        Wanted::PrintRows(path) => print_rows(rt, source(path)),
        Wanted::PrintText(path) => print_text_of(rt, source(path)),
        Wanted::Rows(path) => {
            let mut judging = Judging;
            answer_lines(rt, source(path), &mut judging)
        }
    }
}

fn main(rt: HostRuntime) -> ExitCode {
    status(report(&rt, "judge", run(&rt)))
}
