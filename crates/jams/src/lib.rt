// Who waits where, and who holds the other end: what is told of a run in which nobody can go on.
#![tactic(auto)]

pub mod holders;
pub mod waits;
