// Rows: each line of the input is a program, and gets one line of answer.
use crate::texts::shown;
use lines::Line;
use sources::{Answers, Failed, Source, read_words};
use talks::judge;
use text::print_text;

// The judge answers lines.
#[derive(Clone, Copy)]
pub struct Judging;

impl Answers for Judging {
    fn answer(&mut self, _rt: &HostRuntime, words: &[u32], out: &mut String) -> Result<(), Failed> {
        out.push_str(shown(judge(words)))?;
        out.push_str("\n")?;
        Ok(())
    }

    fn refusal(&self) -> &'static str {
        "no program\n"
    }
}

// Prints the text of rows.
fn print_program(rt: &HostRuntime, source: Source<'_>, mut line: Line) -> Result<(), Failed> {
    let name = source.called();
    if let Some(words) = line.finish()? {
        if let Some(printed) = print_text(rt.alloc(), words)? {
            let text = printed.text;
            print!(rt; "{text}")?;
            if !printed.same {
                eprintln!(rt;
                    "judge: {name}: read again, this text gives other rows: a text numbers points in its own order, and its points always fit"
                )?;
            }
            return Ok(());
        }
    }
    eprintln!(rt; "judge: {name}: these words are no program")?;
    Err(Failed::Said)
}

// Prints the text of a source's rows.
pub fn print_text_of(rt: &HostRuntime, source: Source<'_>) -> Result<(), Failed> {
    let line = read_words(rt, source)?;
    print_program(rt, source, line)
}
