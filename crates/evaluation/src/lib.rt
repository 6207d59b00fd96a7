// Expressions are evaluated where they stand in the rows, and what a start or become hands on is gathered.
#![tactic(auto)]

pub mod expressions;
pub mod handed;
pub mod handing;
