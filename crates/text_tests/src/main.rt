// Reads texts from the standard input, each after a line that begins with `===`, and prints of each its rows and
// whether they are the same once printed as text and read again, or what is wrong and where.
#![tactic(auto)]

use anyhow::anyhow;
use text::{Fault, place_of, print_text, read_text};

// What is printed of a text that was read.
fn show_rows(rt: &HostRuntime, rows: &[u32]) -> anyhow::Result<()> {
    for word in rows.iter() {
        print!(rt; "{word} ")?;
    }
    println!(rt; "")?;
    match print_text(rt.alloc(), rows)? {
        Some(printed) => {
            let same = printed.same;
            println!(rt; "printed and read again: the same is {same}")?;
        }
        None => println!(rt; "it cannot be printed")?,
    }
    Ok(())
}

// What is printed of a text.
fn show_text(rt: &HostRuntime, text: &str) -> anyhow::Result<()> {
    match read_text(rt.alloc(), text) {
        Ok(rows) => show_rows(rt, rows.as_slice()),
        Err(Fault::Memory) => Err(anyhow!("no memory")),
        Err(Fault::Wrong { at, says }) => {
            let place = place_of(text, at);
            let line = place.line.saturating_add(1);
            let column = place.column.saturating_add(1);
            println!(rt; "{line}:{column}: {says}")?;
            Ok(())
        }
    }
}

fn run(rt: &HostRuntime) -> anyhow::Result<()> {
    let mut text = String::new(rt.alloc());
    let mut any = false;
    for line in rt.lines(rt.alloc()) {
        let line = line?;
        if line.as_str().starts_with("===") {
            if any {
                show_text(rt, text.as_str())?;
            }
            any = true;
            text.clear();
            println!(rt; "{line}")?;
        } else {
            text.push_str(line.as_str())?;
            text.push_str("\n")?;
        }
    }
    show_text(rt, text.as_str())
}

fn main(rt: HostRuntime) -> anyhow::Result<()> {
    run(&rt)
}
