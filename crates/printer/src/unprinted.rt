// Why rows are not printed.
use std::alloc::AllocError;
use thiserror::Error;

#[derive(Debug, Drop, Error)]
pub enum Unprinted {
    #[error("these words are no program")]
    NoProgram,
    #[error(transparent)]
    Memory(#[from(alloc)] AllocError),
}
