// Reading a line byte by byte.
ghost use Rattle.std.specs.Borrow.{sem};
ghost use Rattle.std.specs.Option.{option_copied};
ghost use Rattle.std.specs.Prelude.{◌≡◌, ◌<◌, IfOk, OnOk};
ghost use Rattle.lines.specs.Lending.{LendsWords};
ghost use Rattle.lines.specs.Reading.{begun, digit, ended, numbers, read_byte, reading};

use crate::line::Line;
use std::alloc::{AllocError, Global};

// One word more than a program may have: a line with more words is no program, so the rest need not be kept.
const MOST_WORDS: usize = 16385;

impl Line {
    pub fn new(heap: Global) -> Line
        ensures { reading result ≡ begun }
    {
        Line {
            words: Vec::new(heap),
            last: None,
            good: true,
        }
    }

    // The next byte of the line, which is no line feed.
    pub fn read(&mut self, byte: u8) -> Result<(), AllocError>
        ensures { OnOk result (reading self.new ≡ read_byte byte (reading self.old)) }
    {
        match byte {
            b' ' | b'\t' | b'\r' => return self.end_word(),
            b'0'..=b'9' => self.add_digit(u32::from(byte - b'0')),
            _ => self.good = false,
        }
        Ok(())
    }

    // One digit more.
    fn add_digit(&mut self, d: u32)
        requires { d < 10 }
        ensures { reading self.new ≡ digit d (reading self.old) }
    {
        let number = self.last.unwrap_or(0);
        match number.checked_mul(10).and_then(|n| n.checked_add(d)) {
            Some(all) => self.last = Some(all),
            None => self.good = false,
        }
    }

    // A blank or the end of the line.
    fn end_word(&mut self) -> Result<(), AllocError>
        ensures { OnOk result (reading self.new ≡ ended (reading self.old)) }
    {
        if let Some(n) = self.last.take()
            && self.words.len() < MOST_WORDS
        {
            self.words.push(n)?;
        }
        Ok(())
    }

    // At the end of the line: its words, if all of them are numbers of 32 bits.
    pub fn finish(&mut self) -> Result<Option<&[u32]>, AllocError>
        ensures* ended { sem 𝓛 (LendsWords self.entry result) }
        ensures words { IfOk result (λ o. option_copied o ≡ numbers (ended (reading self.old))) }
    {
        self.end_word()?;
        Ok(self.good.then_some(self.words()))
    }

    // The words so far.
    pub fn words(&self) -> &[u32]
        ensures { result.now ≡ self.now.words.items }
    {
        self.words.as_slice()
    }

    // The next line begins.
    pub fn clear(&mut self)
        ensures { reading self.new ≡ begun }
    {
        self.words.clear();
        self.last = None;
        self.good = true;
    }
}
