// A text read into rows.
ghost use Rattle.std.specs.Prelude.{IfOk};
ghost use Rattle.syntax.specs.Marks.{words_of};
ghost use Rattle.text.specs.RowsOf.{IndexedOf, RowsOf};

use crate::indexed::Indexed;
use parser::{Fault, Parsed, parse_text};
use std::alloc::Global;
use syntax::write_marked;
use trees::trees;

// The rows of a text with its names and marks, or what is wrong with it. The rows are the writing of a program whose
// points fit, and the marks stand at the words where its actions begin, in the order of the rows.
pub fn read_indexed(heap: Global, text: &str) -> Result<Indexed, Fault>
    ensures rows { IfOk result (λ i. RowsOf i.rows.items) }
    ensures marks { IfOk result (λ i. IndexedOf i.rows.items (words_of i.marks.items)) }
{
    let parsed = parse_text(heap, text)?;
    let Parsed {
        sides,
        procs,
        names,
    } = parsed;
    let procs = trees(heap, procs)?;
    let mut rows = Vec::new(heap);
    let mut marks = Vec::new(heap);
    write_marked(
        sides.points.as_slice(),
        sides.other.as_slice(),
        procs.as_slice(),
        &mut rows,
        &mut marks,
    )?;
    Ok(Indexed { rows, names, marks })
}

// The rows of a text, or what is wrong with it. They are the writing of a program whose points fit.
pub fn read_text(heap: Global, text: &str) -> Result<Vec<u32>, Fault>
    ensures { IfOk result (λ v. RowsOf v.items) }
{
    let indexed = read_indexed(heap, text)?;
    let Indexed {
        rows,
        names: _,
        marks: _,
    } = indexed;
    Ok(rows)
}
