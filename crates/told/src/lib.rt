// What is told of orders that jam: who waits for whom, as a table or as a graph, and the circle in which they wait.
#![tactic(auto)]

mod circles;
mod graph;
mod orders;
mod table;
mod waits;

pub use exploring::Left;
pub use orders::{Search, look};
