// Rows printed as text, and read again to see whether the text says just them.
ghost use Rattle.std.specs.Prelude.{◌≡◌, true, IfOk};
ghost use Rattle.text.specs.RowsOf.{PrintedSays, RowsOf};

use crate::printed::Printed;
use crate::read::read_text;
use printer::print_rows;
use std::alloc::{AllocError, Global};

// Whether a text is read as these rows.
fn reads_as(heap: Global, text: &str, rows: &[u32]) -> bool
    ensures { result ≡ true → RowsOf rows.now }
{
    match read_text(heap, text) {
        Ok(back) => back.as_slice() == rows,
        Err(_) => false,
    }
}

// The text of rows; nothing where they are no program. Where it is the same once read again, the rows are the
// writing of a program whose points fit.
pub fn print_text(heap: Global, rows: &[u32]) -> Result<Option<Printed>, AllocError>
    ensures { IfOk result (λ o. PrintedSays rows.now o) }
{
    let Some(text) = print_rows(heap, rows)? else {
        return Ok(None);
    };
    let same = reads_as(heap, text.as_str(), rows);
    Ok(Some(Printed { text, same }))
}
