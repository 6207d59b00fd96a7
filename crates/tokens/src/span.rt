// Parts of a text. A name is kept as the part of the text where it stands.

// From a byte to the one where the part has ended.
#[derive(Clone, Copy)]
pub struct Span {
    pub at: usize,
    pub end: usize,
}

impl Span {
    // The part with nothing in it.
    pub fn none() -> Span {
        Span { at: 0, end: 0 }
    }

    pub fn is_empty(self) -> bool {
        self.end <= self.at
    }
}

// What a part of a text says; nothing where there is no such part.
pub fn part<'a>(text: &'a str, span: Span) -> &'a str {
    text.get(span.at..span.end).unwrap_or("")
}
