// The readable text of programs: read into rows, with the place of what is wrong, and printed from rows.
#![tactic(auto)]

mod indexed;
mod place;
mod print;
mod printed;
mod read;
mod spot;

pub use indexed::Indexed;
pub use parser::Fault;
pub use place::place_of;
pub use print::print_text;
pub use printed::Printed;
pub use read::{read_indexed, read_text};
pub use spot::Place;
pub use syntax::Mark;
pub use tokens::{Span, part};
