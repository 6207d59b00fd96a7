// Reads rows of words: what stands at a place, and whether the whole is a program.
#![tactic(auto)]

mod actions;
pub mod decode;
mod expressions;
pub mod lookup;
pub mod map;
pub mod narrow;
mod numbers;
mod sections;
mod unread;

pub use crate::sections::read;
