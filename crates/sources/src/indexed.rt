// A text read with its names and places.
pub use text::{Indexed, Mark, Span, part, read_indexed};
