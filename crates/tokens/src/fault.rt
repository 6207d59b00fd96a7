// What is wrong with a text, and where.
use std::alloc::{AllocError, Global};

// Why a text cannot be read: there is no memory left, or it says something wrong at a byte.
#[derive(Debug, Drop)]
pub enum Fault {
    Memory,
    Wrong { at: usize, says: String },
}

impl From<AllocError> for Fault {
    fn from(_e: AllocError) -> Fault {
        Fault::Memory
    }
}

// A fault at a byte, in these words.
pub fn wrong(heap: Global, at: usize, says: &str) -> Fault {
    match String::from_str(heap, says) {
        Ok(says) => Fault::Wrong { at, says },
        Err(_) => Fault::Memory,
    }
}

// A fault at a byte, in words of up to seven parts.
pub fn wrong_parts(
    heap: Global,
    at: usize,
    a: &str,
    b: &str,
    c: &str,
    d: &str,
    e: &str,
    f: &str,
    g: &str,
) -> Fault {
    match format!(in heap; "{a}{b}{c}{d}{e}{f}{g}") {
        Ok(says) => Fault::Wrong { at, says },
        Err(_) => Fault::Memory,
    }
}
