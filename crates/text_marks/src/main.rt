// Reads a text from the standard input and prints the names of its processes and, for each action in the order of the
// rows, the word at which it begins, the number that stands there, and the line and column in the text.
#![tactic(auto)]

use anyhow::anyhow;
use text::{Fault, Indexed, part, place_of, read_indexed};

// The names of the processes, each with its byte.
fn show_names(rt: &HostRuntime, text: &str, found: &Indexed) -> anyhow::Result<()> {
    for name in found.names.iter() {
        let word = part(text, *name);
        let at = name.at;
        println!(rt; "process {word} at byte {at}")?;
    }
    Ok(())
}

fn show_marks(rt: &HostRuntime, text: &str, found: &Indexed) -> anyhow::Result<()> {
    for mark in found.marks.iter() {
        let word = mark.word;
        let tag = found.rows.get(word).copied().unwrap_or(99);
        let place = place_of(text, mark.at);
        let line = place.line.saturating_add(1);
        let column = place.column.saturating_add(1);
        println!(rt; "word {word}: {tag} at {line}:{column}")?;
    }
    Ok(())
}

fn show(rt: &HostRuntime, text: &str) -> anyhow::Result<()> {
    match read_indexed(rt.alloc(), text) {
        Ok(found) => {
            show_names(rt, text, &found)?;
            show_marks(rt, text, &found)
        }
        Err(Fault::Memory) => Err(anyhow!("no memory")),
        Err(Fault::Wrong { at: _, says }) => {
            println!(rt; "{says}")?;
            Ok(())
        }
    }
}

fn run(rt: &HostRuntime) -> anyhow::Result<()> {
    let mut text = String::new(rt.alloc());
    for line in rt.lines(rt.alloc()) {
        let line = line?;
        text.push_str(line.as_str())?;
        text.push_str("\n")?;
    }
    show(rt, text.as_str())
}

fn main(rt: HostRuntime) -> anyhow::Result<()> {
    run(&rt)
}
