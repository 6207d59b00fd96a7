// Records of processes in lent words.
#![tactic(auto)]

pub mod process;
