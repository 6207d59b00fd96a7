// Rows: each line of the input is a program, and gets an answer.
use crate::failed::Failed;
use crate::source::Source;
use lines::Line;
use std::fs;
use std::io::Read;

// How many bytes are read, and how many are printed, at once.
const CHUNK: usize = 32768;

// Who answers lines.
pub trait Answers {
    // Writes the answer to the words of a line behind what is yet to be printed.
    fn answer(&mut self, rt: &HostRuntime, words: &[u32], out: &mut String) -> Result<(), Failed>;

    // The answer to a line with a word that is no number of 32 bits.
    fn refusal(&self) -> &'static str;
}

// Prints what is yet to be printed, if it is much.
pub fn print_full(rt: &HostRuntime, out: &mut String) -> Result<(), Failed> {
    if out.len() >= CHUNK {
        print!(rt; "{out}")?;
        out.clear();
    }
    Ok(())
}

// A line ends, and is answered.
fn end_line<A: Answers>(
    rt: &HostRuntime,
    answers: &mut A,
    line: &mut Line,
    out: &mut String,
) -> Result<(), Failed> {
    match line.finish()? {
        Some(words) => answers.answer(rt, words, out)?,
        None => out.push_str(answers.refusal())?,
    }
    line.clear();
    print_full(rt, out)
}

// The bytes that were read: each line feed ends a line.
fn take_bytes<A: Answers>(
    rt: &HostRuntime,
    answers: &mut A,
    bytes: &[u8],
    line: &mut Line,
    out: &mut String,
) -> Result<(), Failed> {
    for b in bytes {
        if *b == b'\n' {
            end_line(rt, answers, line, out)?;
        } else {
            line.read(*b)?;
        }
    }
    Ok(())
}

// The next bytes of an input; none at its end.
fn read_chunk<R: Read>(input: &mut R, chunk: &mut Vec<u8>) -> Result<(), Failed> {
    let mut buf = [0u8; CHUNK];
    let n = input.read(&mut buf)?;
    chunk.clear();
    chunk.extend_from_slice(&buf[0..n])?;
    Ok(())
}

fn answer_all<R: Read + Drop, A: Answers>(
    rt: &HostRuntime,
    mut input: R,
    answers: &mut A,
) -> Result<(), Failed> {
    let mut line = Line::new(rt.alloc());
    let mut out = String::new(rt.alloc());
    let mut chunk = Vec::new(rt.alloc());
    let mut last = b'\n';
    for _ in 0..u64::MAX {
        read_chunk(&mut input, &mut chunk)?;
        match chunk.last() {
            Some(b) => last = *b,
            None => break,
        }
        take_bytes(rt, answers, chunk.as_slice(), &mut line, &mut out)?;
    }
    if last != b'\n' {
        end_line(rt, answers, &mut line, &mut out)?;
    }
    print!(rt; "{out}")?;
    Ok(())
}

// Answers all lines of a source.
pub fn answer_lines<A: Answers>(
    rt: &HostRuntime,
    source: Source<'_>,
    answers: &mut A,
) -> Result<(), Failed> {
    if source.path == "-" {
        return answer_all(rt, rt.stdin(), answers);
    }
    match fs::open(rt, source.path) {
        Ok(file) => answer_all(rt, file, answers),
        Err(e) => Err(source.unreadable(rt, e)?),
    }
}

// More bytes of one program, whose lines are joined.
fn add_bytes(bytes: &[u8], line: &mut Line) -> Result<(), Failed> {
    for b in bytes {
        let byte = if *b == b'\n' { b' ' } else { *b };
        line.read(byte)?;
    }
    Ok(())
}

fn read_all<R: Read + Drop>(rt: &HostRuntime, mut input: R) -> Result<Line, Failed> {
    let mut line = Line::new(rt.alloc());
    let mut chunk = Vec::new(rt.alloc());
    for _ in 0..u64::MAX {
        read_chunk(&mut input, &mut chunk)?;
        if chunk.is_empty() {
            break;
        }
        add_bytes(chunk.as_slice(), &mut line)?;
    }
    Ok(line)
}

// The words of one program, on one line or on several.
pub fn read_words(rt: &HostRuntime, source: Source<'_>) -> Result<Line, Failed> {
    if source.path == "-" {
        return read_all(rt, rt.stdin());
    }
    match fs::open(rt, source.path) {
        Ok(file) => read_all(rt, file),
        Err(e) => Err(source.unreadable(rt, e)?),
    }
}
