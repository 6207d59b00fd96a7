// Protocols, printed from points. A point that several others go on at, or a conversation begins at, begins a
// protocol of its own; the rest stand in the protocol of the point before them.
use crate::page::Page;
use crate::points::{Layout, Point, Points, Side};
use rows::decode::PointKind;
use std::alloc::{AllocError, Global};

// The protocols of a program that are being printed.
#[derive(Drop)]
pub struct Protocols<'a> {
    page: &'a mut Page,
    layout: &'a Layout,
    // How often each written point is gone on at or begun at.
    uses: Vec<u32>,
    // The written point that is to be printed next.
    next: u32,
}

impl<'a> Protocols<'a> {
    pub fn new(
        heap: Global,
        page: &'a mut Page,
        layout: &'a Layout,
    ) -> Result<Protocols<'a>, AllocError> {
        let uses = vec![in heap; 0u32; layout.written.len()]?;
        Ok(Protocols {
            page,
            layout,
            uses,
            next: 0,
        })
    }

    // Counts one use of a point, as so many.
    fn add(&mut self, point: u32, weight: u32) {
        if let Some(Side::Near(k) | Side::Far(k)) = self.layout.side(point)
            && let Some(count) = self.uses.get_mut(k as usize)
        {
            *count = count.saturating_add(weight);
        }
    }

    // Counts the points at which a point goes on.
    fn add_point(&mut self, p: PointKind) {
        match p {
            PointKind::Over => {}
            PointKind::Gives(n) | PointKind::Takes(n) => self.add(n, 1),
            PointKind::Chooses(n, m) | PointKind::Offers(n, m) => {
                self.add(n, 1);
                self.add(m, 1);
            }
        }
    }

    // Counts the points at which all written points go on.
    pub fn add_points(&mut self) {
        for p in self.layout.written.iter() {
            self.add_point(*p);
        }
    }

    // The points at which the conversations of a process begin are counted twice, so that each begins a protocol.
    pub fn add_talks(&mut self, talks: &[u32]) {
        for t in talks {
            self.add(*t, 2);
        }
    }

    // Whether a written point begins a protocol wherever it stands.
    fn begins(&self, k: u32) -> bool {
        self.uses.get(k as usize).is_some_and(|count| *count > 1)
    }

    // What comes at a point: its steps here, if it is the next to be printed and no protocol of its own, or `then`.
    #[cycle(put_next_put_steps_put_ways)]
    fn put_next(&mut self, point: u32, depth: u32) -> Result<(), AllocError> {
        if let Some(Side::Near(k)) = self.layout.side(point)
            && k == self.next
            && !self.begins(k)
        {
            return self.put_steps(depth);
        }
        let name = self.layout.name(point);
        self.page.line()?;
        write!(self.page, "then {name};")
    }

    // A choice between two ways.
    #[cycle(put_next_put_steps_put_ways)]
    fn put_ways(
        &mut self,
        word: &str,
        first: u32,
        second: u32,
        depth: u32,
    ) -> Result<(), AllocError> {
        write!(self.page, "{word} {{")?;
        self.page.enter();
        self.page.line()?;
        write!(self.page, "first:")?;
        self.page.enter();
        self.put_next(first, depth)?;
        self.page.leave();
        self.page.line()?;
        write!(self.page, "second:")?;
        self.page.enter();
        self.put_next(second, depth)?;
        self.page.leave();
        self.page.leave();
        self.page.line()?;
        write!(self.page, "}}")
    }

    // The steps from the next written point on.
    #[cycle(put_next_put_steps_put_ways)]
    fn put_steps(&mut self, depth: u32) -> Result<(), AllocError> {
        if depth == 0 {
            return Ok(());
        }
        let point = self.layout.written.get(self.next as usize).copied();
        self.next = self.next.saturating_add(1);
        self.page.line()?;
        match point.unwrap_or(PointKind::Over) {
            PointKind::Over => write!(self.page, "end;"),
            PointKind::Gives(n) => {
                write!(self.page, "give;")?;
                self.put_next(n, depth - 1)
            }
            PointKind::Takes(n) => {
                write!(self.page, "take;")?;
                self.put_next(n, depth - 1)
            }
            PointKind::Chooses(n, m) => self.put_ways("choose", n, m, depth - 1),
            PointKind::Offers(n, m) => self.put_ways("offer", n, m, depth - 1),
        }
    }

    // All protocols.
    pub fn put_all(&mut self) -> Result<(), AllocError> {
        for k in 0..self.layout.written.len().min(256) as u32 {
            if k == self.next {
                self.page.line()?;
                write!(self.page, "protocol P{k} {{")?;
                self.page.enter();
                self.put_steps(300)?;
                self.page.leave();
                self.page.line()?;
                write!(self.page, "}}")?;
                self.page.line()?;
            }
        }
        Ok(())
    }
}

// What a point says, where points do not fit and so are no protocols.
fn put_point(page: &mut Page, number: usize, point: Point) -> Result<(), AllocError> {
    write!(page, "point P{number}: ")?;
    match point.kind {
        PointKind::Over => write!(page, "end")?,
        PointKind::Gives(n) => write!(page, "give, then P{n}")?,
        PointKind::Takes(n) => write!(page, "take, then P{n}")?,
        PointKind::Chooses(n, m) => write!(page, "choose, then P{n} or P{m}")?,
        PointKind::Offers(n, m) => write!(page, "offer, then P{n} or P{m}")?,
    }
    let other = point.other;
    write!(page, "; other side P{other}")
}

// A list of points that do not fit.
pub fn put_loose_points(page: &mut Page, p: &Points) -> Result<(), AllocError> {
    for (number, point) in p.all.iter().enumerate() {
        page.line()?;
        put_point(page, number, *point)?;
    }
    page.line()
}
