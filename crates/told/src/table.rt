// Who waits for whom, as a table.
use crate::waits::{Jam, Waits, waits_for, word_of};
use exploring::Left;
use sources::Failed;
use std::alloc::Global;

// Writes a word and fills the column with blanks, at least two.
fn put_column(out: &mut String, word: &str, width: usize) -> Result<(), Failed> {
    out.push_str(word)?;
    for _ in word.len()..width.max(word.len().saturating_add(2)) {
        out.push_str(" ")?;
    }
    Ok(())
}

impl Jam<'_> {
    // Who holds the other end, or what is not there.
    fn put_other(&self, one: Left, waits: Waits, out: &mut String) -> Result<(), Failed> {
        match waits {
            Waits::Start(f) => write!(out, "there is no process p{f}")?,
            Waits::Become(f) => write!(out, "there is no process p{f}")?,
            _ => match one.end {
                None => write!(out, "there is no such conversation")?,
                Some(_e) => match one.holder {
                    None => write!(out, "nobody")?,
                    Some(other) => return self.put_process(other, out),
                },
            },
        }
        Ok(())
    }

    // The line at which a process waits.
    fn put_end(&self, one: Left, out: &mut String) -> Result<(), Failed> {
        match one.end {
            None => out.push_str("-")?,
            Some(end) => {
                let line = end.line;
                write!(out, "{line}")?;
            }
        }
        Ok(())
    }

    // One row.
    fn put_row(&self, one: Left, cell: &mut String, out: &mut String) -> Result<(), Failed> {
        let waits = waits_for(self.named.rows, one);
        out.push_str("  ")?;
        cell.clear();
        self.put_process(one.process, cell)?;
        put_column(out, cell.as_str(), 18)?;
        put_column(out, word_of(waits), 10)?;
        cell.clear();
        self.put_end(one, cell)?;
        put_column(out, cell.as_str(), 6)?;
        cell.clear();
        self.put_other(one, waits, cell)?;
        self.put_last(one, cell, out)
    }

    // The last columns of a row.
    fn put_last(&self, one: Left, cell: &mut String, out: &mut String) -> Result<(), Failed> {
        if self.named.marks.is_empty() {
            out.push_str(cell.as_str())?;
        } else {
            put_column(out, cell.as_str(), 18)?;
            self.named.put_line(one.place as usize, out)?;
        }
        out.push_str("\n")?;
        Ok(())
    }

    // The first row says what stands in the others.
    fn put_heads(&self, out: &mut String) -> Result<(), Failed> {
        out.push_str("  ")?;
        put_column(out, "process", 18)?;
        put_column(out, "waits to", 10)?;
        put_column(out, "line", 6)?;
        if self.named.marks.is_empty() {
            out.push_str("other end\n")?;
        } else {
            put_column(out, "other end", 18)?;
            out.push_str("text\n")?;
        }
        Ok(())
    }

    // The whole table.
    pub(crate) fn put_table(&self, heap: Global, out: &mut String) -> Result<(), Failed> {
        let seed = self.seed;
        let count = self.left.len();
        write!(out, "seed {seed} jams; left: {count}\n")?;
        self.put_heads(out)?;
        let mut cell = String::new(heap);
        for one in self.left {
            self.put_row(*one, &mut cell, out)?;
        }
        self.put_circle(out)
    }
}
