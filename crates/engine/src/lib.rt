// Runs a program in lent words.
#![tactic(auto)]

pub mod act;
pub mod order;
pub mod out;
pub mod run;
pub mod set_up;
pub mod shown;
pub mod step;
pub mod whole;
