// Decides whether a program that was read keeps to its conversations.
#![tactic(auto)]

mod actions;
mod beginning;
mod calls;
mod conversations;
mod course;
mod handing;
mod moves;
mod points;
mod program;
mod setting;
mod variables;
mod walk;

pub use crate::program::program_keeps;
