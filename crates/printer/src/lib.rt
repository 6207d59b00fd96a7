// Rows printed as text, with invented names: protocols P0, P1, ..; processes p0, p1, ..; conversations c0, c1, ..;
// variables v0, v1, ..; the ways `first` and `second`.
#![tactic(auto)]

ghost use Rattle.printer.specs.EndsLine.{EndsLine, Lines};
ghost use Rattle.std.specs.Prelude.{IfOk, string_bytes};

mod name;
mod page;
mod points;
mod processes;
mod program;
mod protocols;
mod unprinted;

use page::Page;
use program::Program;
use std::alloc::{AllocError, Global};
use unprinted::Unprinted;

// The text of the rows of a program. It ends with a line feed.
fn print_program(heap: Global, words: &[u32]) -> Result<String, Unprinted>
    ensures { IfOk result (λ t. Lines (string_bytes t)) }
{
    let program = Program::read(heap, words)?;
    let mut page = Page::new(heap);
    program.put_points(heap, &mut page)?;
    program.put_processes(heap, &mut page)?;
    Ok(page.finish()?)
}

// The text of rows; nothing where they are no program. It ends with a line feed.
pub fn print_rows(heap: Global, words: &[u32]) -> Result<Option<String>, AllocError>
    ensures { IfOk result (λ o. EndsLine o) }
{
    match print_program(heap, words) {
        Ok(text) => Ok(Some(text)),
        Err(Unprinted::NoProgram) => Ok(None),
        Err(Unprinted::Memory(e)) => Err(e),
    }
}
