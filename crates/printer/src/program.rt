// A program that is printed.
use crate::page::Page;
use crate::points::{Layout, Points, read_points};
use crate::processes::{Processes, talks_of};
use crate::protocols::{Protocols, put_loose_points};
use crate::unprinted::Unprinted;
use rows::decode::head_at;
use std::alloc::{AllocError, Global};

// Its rows, their points and what these are called, and where each process begins.
#[derive(Drop)]
pub struct Program<'a> {
    words: &'a [u32],
    points: Points,
    layout: Layout,
    starts: Vec<usize>,
}

// Where each process begins, the first of them at a place, if all that comes from there on is processes: they are
// printed for this alone.
fn places(
    heap: Global,
    words: &[u32],
    layout: &Layout,
    begin: usize,
) -> Result<Vec<usize>, Unprinted> {
    let mut starts = Vec::new(heap);
    let mut page = Page::new(heap);
    let mut processes = Processes::new(heap, &mut page, words, layout, 0);
    let mut at = begin;
    for _ in 0..words.len() {
        if at >= words.len() {
            return Ok(starts);
        }
        starts.push(at)?;
        at = processes.put(0, at)?;
    }
    Err(Unprinted::NoProgram)
}

impl<'a> Program<'a> {
    // The program of these words.
    pub fn read(heap: Global, words: &'a [u32]) -> Result<Program<'a>, Unprinted> {
        let points = read_points(heap, words)?;
        let layout = points.layout(heap)?;
        let starts = places(heap, words, &layout, points.end)?;
        Ok(Program {
            words,
            points,
            layout,
            starts,
        })
    }

    // Prints the points, as protocols if they fit.
    pub fn put_points(&self, heap: Global, page: &mut Page) -> Result<(), AllocError> {
        if self.points.fit() {
            return self.put_protocols(heap, page);
        }
        write!(
            page,
            "# The points of this program do not fit, which no text can say: this is a list to look at only."
        )?;
        put_loose_points(page, &self.points)
    }

    fn put_protocols(&self, heap: Global, page: &mut Page) -> Result<(), AllocError> {
        let mut protocols = Protocols::new(heap, page, &self.layout)?;
        protocols.add_points();
        for at in self.starts.iter() {
            if let Some(head) = head_at(self.words, *at) {
                protocols.add_talks(talks_of(self.words, head));
            }
        }
        protocols.put_all()
    }

    // Prints the processes.
    pub fn put_processes(&self, heap: Global, page: &mut Page) -> Result<(), Unprinted> {
        let count = self.starts.len().min(64) as u32;
        let mut processes = Processes::new(heap, page, self.words, &self.layout, count);
        for (number, at) in self.starts.iter().enumerate() {
            processes.put(number, *at)?;
        }
        Ok(())
    }
}
