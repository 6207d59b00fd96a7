// A program that is read as a text.
use crate::runner::Runner;
use sources::{Failed, Named, Source, fault_of, read_indexed, read_source};

// Runs the program of a text; it succeeds only if all is well with it.
pub(crate) fn run_text(
    rt: &HostRuntime,
    source: Source<'_>,
    runner: &mut Runner<'_>,
) -> Result<(), Failed> {
    let text = read_source(rt, source)?;
    let indexed = match read_indexed(rt.alloc(), text.as_str()) {
        Ok(indexed) => indexed,
        Err(fault) => return Err(fault_of(rt, source, text.as_str(), fault)?),
    };
    let named = Named {
        rows: indexed.rows.as_slice(),
        path: source.called(),
        text: text.as_str(),
        names: indexed.names.as_slice(),
        marks: indexed.marks.as_slice(),
    };
    let mut out = String::new(rt.alloc());
    let well = runner.run(rt, &named, &mut out)?;
    print!(rt; "{out}")?;
    if well { Ok(()) } else { Err(Failed::Said) }
}
