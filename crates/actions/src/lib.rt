// What processes do, read into parts: expressions, and actions one after the other.
#![tactic(auto)]

mod actions;
mod expressions;
mod parts;
mod reader;
mod steps;

pub use actions::read_actions;
pub use parts::{Act, Flat, Fork, Handed, Part, Step};
pub use reader::{Known, Reader, Scope, Talk};
