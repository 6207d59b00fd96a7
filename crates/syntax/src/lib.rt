// A program as a tree: protocol points, expressions, what processes do. It is what a text is read into, what rows
// are printed from, and it is written as rows here.
#![tactic(auto)]

mod sides;
mod tree;
mod write;

pub use sides::{Sides, both_sides};
pub use tree::{Action, Expression, Mark, Point, Process};
pub use write::{write_marked, write_program};
