// Who waits at the ends of lines, and the queue of processes that can go on, in lent words.
#![tactic(auto)]

pub mod lines;
pub mod ring;
