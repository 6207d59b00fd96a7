// A run step by step, each said in words.
#![tactic(auto)]

mod said;
mod steps;
mod turn;

pub use steps::{Wanted, trace_run};
