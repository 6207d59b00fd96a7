// A text cut into tokens, a place in it, and what is wrong with it.
#![tactic(auto)]

mod cursor;
mod fault;
mod lexer;
mod names;
mod span;

pub use cursor::{Cursor, keep};
pub use fault::{Fault, wrong};
pub use lexer::Token;
pub use names::{Ways, find, is_close};
pub use span::{Span, part};
