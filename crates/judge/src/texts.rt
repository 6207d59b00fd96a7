// Texts: read from a file or the standard input, judged, or printed as rows.
use sources::{Failed, Source, fault_of, read_source};
use talks::{Judged, judge};
use text::read_text;

// The rows of a source's text; what is wrong with it is said, with its place.
fn read_rows(rt: &HostRuntime, source: Source<'_>) -> Result<Vec<u32>, Failed> {
    let text = read_source(rt, source)?;
    match read_text(rt.alloc(), text.as_str()) {
        Ok(rows) => Ok(rows),
        Err(fault) => Err(fault_of(rt, source, text.as_str(), fault)?),
    }
}

// What is printed for an answer.
pub fn shown(answer: Judged) -> &'static str {
    match answer {
        Judged::Keeps => "keeps",
        Judged::Careless => "careless",
        Judged::NoProgram => "no program",
    }
}

// Prints the answer; it succeeds only if the program keeps.
pub fn judge_text(rt: &HostRuntime, source: Source<'_>) -> Result<(), Failed> {
    let rows = read_rows(rt, source)?;
    let answer = judge(rows.as_slice());
    let words = shown(answer);
    println!(rt; "{words}")?;
    match answer {
        Judged::Keeps => Ok(()),
        _ => Err(Failed::Said),
    }
}

// Prints the rows of a text as one line.
pub fn print_rows(rt: &HostRuntime, source: Source<'_>) -> Result<(), Failed> {
    let rows = read_rows(rt, source)?;
    let mut line = String::new(rt.alloc());
    for word in rows.iter() {
        if !line.is_empty() {
            line.push_str(" ")?;
        }
        let digits = word.to_string(rt.alloc())?;
        line.push_str(digits.as_str())?;
    }
    println!(rt; "{line}")?;
    Ok(())
}
