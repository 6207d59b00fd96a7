// A program, and what its text calls things.
use crate::failed::Failed;
use crate::indexed::{Mark, Span, part};
use rows::map::Map;
use text::place_of;

#[derive(Clone, Copy)]
pub struct Named<'a> {
    pub rows: &'a [u32],
    // What the source is called.
    pub path: &'a str,
    // The text, the names of its processes, and where its actions stand; all empty where rows were read.
    pub text: &'a str,
    pub names: &'a [Span],
    pub marks: &'a [Mark],
}

// The process of the program that a place of the rows belongs to.
pub fn process_of_place(map: &Map, place: usize) -> u32 {
    let mut found = 0;
    for (k, at) in map
        .processes
        .at
        .iter()
        .take(map.processes.count)
        .enumerate()
    {
        if *at as usize <= place {
            found = k as u32;
        }
    }
    found
}

impl Named<'_> {
    // Writes the name of a process of the program: that of its text, or one that is made of its number.
    pub fn put_name(&self, process: u32, out: &mut String) -> Result<(), Failed> {
        match self.names.get(process as usize) {
            Some(name) => out.push_str(part(self.text, *name))?,
            None => write!(out, "p{process}")?,
        }
        Ok(())
    }

    // The line of the text, from 0 on, in which the action at a place of the rows begins.
    fn line_of(&self, place: usize) -> Option<usize> {
        for mark in self.marks {
            if mark.word == place {
                return Some(place_of(self.text, mark.at).line);
            }
        }
        None
    }

    // Writes the line of the text in which the action at a place of the rows begins, with its number; nothing where
    // rows were read. Answers whether there is such a line.
    pub fn put_line(&self, place: usize, out: &mut String) -> Result<bool, Failed> {
        let Some(line) = self.line_of(place) else {
            return Ok(false);
        };
        let path = self.path;
        let number = line.saturating_add(1);
        write!(out, "{path}:{number}:")?;
        for words in self.text.lines().skip(line).take(1) {
            let words = words.trim();
            write!(out, " {words}")?;
        }
        Ok(true)
    }
}
