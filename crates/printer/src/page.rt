// A text that is being written, line by line.
ghost use Rattle.std.specs.Prelude.{◌≡◌, [], ◌∷◌, ◌++◌, IfOk, string_bytes};

use std::alloc::{AllocError, Global};
use std::fmt::Display;

#[derive(Drop)]
pub struct Page {
    text: String,
    indent: usize,
}

impl Page {
    pub fn new(heap: Global) -> Page {
        Page {
            text: String::new(heap),
            indent: 0,
        }
    }

    // What `write!` calls.
    pub fn write_fmt<D: Display + Drop>(&mut self, words: D) -> Result<(), AllocError> {
        self.text.write_fmt(words)
    }

    // Ends the line, and begins the next at the indent, which is not printed deeper than eight blocks: a text stays
    // small however deep its blocks are.
    pub fn line(&mut self) -> Result<(), AllocError> {
        self.text.push_str("\n")?;
        for _ in 0..self.indent.min(8) {
            self.text.push_str("    ")?;
        }
        Ok(())
    }

    pub fn enter(&mut self) {
        self.indent = self.indent.saturating_add(1);
    }

    pub fn leave(&mut self) {
        self.indent = self.indent.saturating_sub(1);
    }

    // The text, with its last line ended.
    pub fn finish(mut self) -> Result<String, AllocError>
        ensures { IfOk result (λ t. string_bytes t ≡ string_bytes self.text ++ (10 ∷ [])) }
    {
        self.text.push_str("\n")?;
        Ok(self.text)
    }
}
