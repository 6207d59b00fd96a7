// Rows as lines of text: decimal words between blanks, read byte by byte, so that a line of any length takes no
// more memory than the longest program.
#![tactic(auto)]

mod line;
mod read;

pub use line::Line;
