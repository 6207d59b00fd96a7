// A place in a text.

// How many lines, and in its line how many characters, stand before it.
#[derive(Clone, Copy, Debug, PartialEq)]
pub struct Place {
    pub line: usize,
    pub column: usize,
}
