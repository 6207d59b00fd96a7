// What programs read: texts, and lines of rows, from files or the standard input; and what is said where they cannot.
#![tactic(auto)]

mod command;
mod failed;
mod indexed;
mod lines_of;
mod named;
mod source;
mod texts;

pub use command::{report, status, words_of_command};
pub use failed::Failed;
pub use indexed::{Indexed, Mark, Span, read_indexed};
pub use lines_of::{Answers, answer_lines, print_full, read_words};
pub use named::{Named, process_of_place};
pub use source::Source;
pub use texts::{fault_of, read_source};
