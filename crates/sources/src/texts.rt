// The text of a source.
use crate::failed::Failed;
use crate::source::Source;
use std::io::Read;
use std::{fs, io};
use text::{Fault, place_of};

// No text of a program is longer than this.
const MOST_BYTES: u64 = 786432;

// All that a reader gives, up to one byte more than a text may have.
fn read_some<R: Read + Drop>(rt: &HostRuntime, input: R) -> io::Result<Vec<u8>> {
    let mut bytes = Vec::new(rt.alloc());
    let mut limited = input.take(MOST_BYTES + 1);
    limited.read_to_end(&mut bytes)?;
    Ok(bytes)
}

fn read_bytes(rt: &HostRuntime, path: &str) -> io::Result<Vec<u8>> {
    if path == "-" {
        return read_some(rt, rt.stdin());
    }
    read_some(rt, fs::open(rt, path)?)
}

// The text of a source; what is wrong with it is said.
pub fn read_source(rt: &HostRuntime, source: Source<'_>) -> Result<String, Failed> {
    let reader = source.reader;
    let name = source.called();
    let bytes = match read_bytes(rt, source.path) {
        Ok(bytes) => bytes,
        Err(e) => return Err(source.unreadable(rt, e)?),
    };
    if bytes.len() as u64 > MOST_BYTES {
        eprintln!(rt;
            "{reader}: {name}: longer than any program's text, which has at most {MOST_BYTES} bytes"
        )?;
        return Err(Failed::Said);
    }
    match String::from_utf8(bytes) {
        Ok(text) => Ok(text),
        Err(_) => {
            eprintln!(rt; "{reader}: {name}: these bytes are no text: save the file as UTF-8")?;
            Err(Failed::Said)
        }
    }
}

// Says what is wrong with a text, and where.
pub fn fault_of(
    rt: &HostRuntime,
    source: Source<'_>,
    text: &str,
    fault: Fault,
) -> Result<Failed, Failed> {
    match fault {
        Fault::Memory => Ok(Failed::Memory),
        Fault::Wrong { at, says } => {
            let name = source.called();
            let place = place_of(text, at);
            let line = place.line.saturating_add(1);
            let column = place.column.saturating_add(1);
            eprintln!(rt; "{name}:{line}:{column}: {says}")?;
            Ok(Failed::Said)
        }
    }
}
