// Why the program ends with status 1.
use std::alloc::{AllocError, AllocFailed};
use std::{fmt, io};

#[derive(Drop)]
pub enum Failed {
    // All was said already.
    Said,
    Memory,
    Io(io::Error),
}

impl From<io::Error> for Failed {
    fn from(e: io::Error) -> Failed {
        Failed::Io(e)
    }
}

impl From<AllocError> for Failed {
    fn from(_e: AllocError) -> Failed {
        Failed::Memory
    }
}

impl<T: Drop> From<AllocFailed<T>> for Failed {
    fn from(_e: AllocFailed<T>) -> Failed {
        Failed::Memory
    }
}

// Writing to a text in memory fails only where there is no more of it.
impl From<fmt::Error> for Failed {
    fn from(_e: fmt::Error) -> Failed {
        Failed::Memory
    }
}
