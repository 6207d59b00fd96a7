// Runs programs as a command line asks: once, in several orders, or looking for one that jams.
#![tactic(auto)]

mod answers;
mod options;
mod runner;
mod settings;
mod texts;

use options::read_options;
use runner::Runner;
use sources::{Failed, Source, answer_lines};
use texts::run_text;

const HELP: &str = "run: runs a program

  run [FILE]               reads the text of a program, runs it, and prints one line:
                           `done K: ..` all processes have stopped, with the K numbers that were shown
                           `spent K: ..` a process is out of turns, with the K numbers shown until then
                           `crowded` there are more processes than allowed
                           `out full` more numbers are shown than there is room for
                           `unkept` the program is careless, `unread` it is no program
                           status 0 only if it is done or spent
  run --rows [FILE]        reads rows: each line is one program, as decimal words between blanks, and is
                           answered by one line; status 0 if all lines could be answered
  run --orders M [FILE]    runs it in M orders, with the seeds S, S + 1, .., and says whether all agree;
                           status 0 if they do, and are done or spent
  run --trace [FILE]       runs it and prints each step, and then the line; a careless program is run too, to
                           see how it comes to jam
  run --jam M [FILE]       looks in M orders for one that jams, with the seeds S, S + 1, .., and prints who waits
                           for whom, and the circle in which they wait; status 0 if none is found
  run --jam M --dot [FILE] the same as a graph for Graphviz
  run --help               prints this

  --processes N            at most N processes in all, from 0 to 200; 200 if nothing is said
  --turns T                so many turns for the first process, from 0 to 4294967295; else 1000000
  --room K                 room for K numbers, from 0 to 65536; else 1024
  --seed S                 draws the order from a seed of 64 bits; without it the order is fixed, or S is 1
                           where there are several orders

Without FILE, or where FILE is -, the standard input is read. A text that cannot be read is answered by
FILE:LINE:COLUMN: on standard error, with what is wrong and what to write instead, and by status 1.";

// Does what the words after the program's name ask for.
pub fn run_command(rt: &HostRuntime, words: &[String]) -> Result<(), Failed> {
    let options = read_options(rt, words)?;
    if options.help {
        println!(rt; "{HELP}")?;
        return Ok(());
    }
    let source = Source {
        reader: "run",
        path: options.path(),
    };
    let mut runner = Runner::new(rt.alloc(), options)?;
    if options.rows {
        return answer_lines(rt, source, &mut runner);
    }
    run_text(rt, source, &mut runner)
}
