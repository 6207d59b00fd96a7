// One turn of a process.
#![tactic(auto)]

pub mod alone;
pub mod communicate;
pub mod meeting;
pub mod turn;
