// What the command line asks for.
use sources::Failed;

// What is wanted; the text is the file, or `-` for the standard input.
#[derive(Clone, Copy)]
pub enum Wanted<'a> {
    Help,
    Judge(&'a str),
    Rows(&'a str),
    PrintRows(&'a str),
    PrintText(&'a str),
}

// Whether a word of the command line is an option; `-` alone is the standard input.
fn is_option(word: &str) -> bool {
    word.starts_with('-') && word.len() > 1
}

// The words after the program's name.
pub fn read_options<'a>(rt: &HostRuntime, words: &'a [String]) -> Result<Wanted<'a>, Failed> {
    let first = match words.first() {
        Some(w) => w.as_str(),
        None => return Ok(Wanted::Judge("-")),
    };
    if !is_option(first) {
        return alone(rt, words, Wanted::Judge(first), 1);
    }
    let file = match words.get(1) {
        Some(w) => w.as_str(),
        None => "-",
    };
    match first {
        "--help" => Ok(Wanted::Help),
        "--rows" => alone(rt, words, Wanted::Rows(file), 2),
        "--print-rows" => alone(rt, words, Wanted::PrintRows(file), 2),
        "--print-text" => alone(rt, words, Wanted::PrintText(file), 2),
        _ => {
            eprintln!(rt;
                "judge: there is no option `{first}`: `judge --help` says which there are"
            )?;
            Err(Failed::Said)
        }
    }
}

// What is wanted, if no more than `most` words stand on the command line.
fn alone<'a>(
    rt: &HostRuntime,
    words: &'a [String],
    wanted: Wanted<'a>,
    most: usize,
) -> Result<Wanted<'a>, Failed> {
    if words.len() > most {
        eprintln!(rt; "judge: one file at a time: `judge --help` says what to write")?;
        return Err(Failed::Said);
    }
    Ok(wanted)
}
