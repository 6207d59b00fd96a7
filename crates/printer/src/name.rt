// Invented names.
use std::fmt;

// A name that is made of a number and what stands before it.
#[derive(Clone, Copy)]
pub struct Name {
    pub before: &'static str,
    pub number: u32,
}

impl Name {
    // The name of one of so many things; of a number that none of them has, only that it is not known.
    pub fn below(before: &'static str, number: u32, count: u32) -> Name {
        let before = if number < count { before } else { "?" };
        Name { before, number }
    }
}

impl fmt::Display for Name {
    fn fmt<W: fmt::Write>(&self, f: &mut fmt::Formatter<W>) -> fmt::Result {
        let Name { before, number } = *self;
        write!(f, "{before}{number}")
    }
}
