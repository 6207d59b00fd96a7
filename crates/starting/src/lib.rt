// Turns in which a process starts another or becomes another.
#![tactic(auto)]

pub mod begin;
pub mod heads;
pub mod start;
