// Running by looking for each step among all processes.
#![tactic(auto)]

mod advance;
mod pairs;
pub mod run;
mod search;
pub mod standing;
