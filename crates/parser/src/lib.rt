// The readable text of programs, read into a tree.
#![tactic(auto)]

mod parse;
mod processes;

pub use parse::{Parsed, parse_text};
pub use tokens::Fault;
