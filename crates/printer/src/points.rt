// The points of rows, and what they are called in a text: a point of the side that is written, or the other side
// of one.
ghost use Rattle.std.specs.Prelude.{◌≤◌};

use crate::name::Name;
use crate::unprinted::Unprinted;
use rows::decode::{PointKind, point_at};
use std::alloc::{AllocError, Global};

// A point of rows: what it says, and the number of its other side.
#[derive(Clone, Copy)]
pub struct Point {
    pub kind: PointKind,
    pub other: u32,
}

// The points of rows, and where the rows go on after them.
#[derive(Drop)]
pub struct Points {
    pub all: Vec<Point>,
    pub end: usize,
}

// Which side of which written point a point is.
#[derive(Clone, Copy)]
pub enum Side {
    Near(u32),
    Far(u32),
}

// The sides of all points, and what each point that is written says.
#[derive(Drop)]
pub struct Layout {
    sides: Vec<Option<Side>>,
    pub written: Vec<PointKind>,
}

// How many words a point has.
fn size_of(kind: PointKind) -> usize
    ensures { result ≤ 3 }
{
    match kind {
        PointKind::Over => 1,
        PointKind::Gives(_) | PointKind::Takes(_) => 2,
        PointKind::Chooses(_, _) | PointKind::Offers(_, _) => 3,
    }
}

// All points of rows: first what each says, and then the other side of each.
pub fn read_points(heap: Global, words: &[u32]) -> Result<Points, Unprinted> {
    let count = words.first().copied().ok_or(Unprinted::NoProgram)?;
    let mut kinds = Vec::new(heap);
    let mut at = 1usize;
    for _ in 0..count {
        let kind = point_at(words, at).ok_or(Unprinted::NoProgram)?;
        kinds.push(kind)?;
        at += size_of(kind);
    }
    let end = at + kinds.len();
    let others = words.get(at..end).ok_or(Unprinted::NoProgram)?;
    let all = kinds
        .iter()
        .zip(others)
        .map(|(kind, other)| Point {
            kind: *kind,
            other: *other,
        })
        .collect(heap)?;
    Ok(Points { all, end })
}

impl Points {
    fn get(&self, number: u32) -> Option<Point> {
        self.all.get(number as usize).copied()
    }

    // Whether two points are each other's other side.
    fn mutual(&self, i: u32, j: u32) -> bool {
        self.get(i).is_some_and(|p| p.other == j) && self.get(j).is_some_and(|q| q.other == i)
    }

    // Whether what two sides say fits.
    fn faces(&self, p: PointKind, q: PointKind) -> bool {
        match (p, q) {
            (PointKind::Over, PointKind::Over) => true,
            (PointKind::Gives(n), PointKind::Takes(m))
            | (PointKind::Takes(n), PointKind::Gives(m)) => self.mutual(n, m),
            (PointKind::Chooses(a, b), PointKind::Offers(c, d))
            | (PointKind::Offers(a, b), PointKind::Chooses(c, d)) => {
                self.mutual(a, c) && self.mutual(b, d)
            }
            _ => false,
        }
    }

    // Whether the point of a number fits its other side.
    fn fits_at(&self, number: u32, p: Point) -> bool {
        self.get(p.other)
            .is_some_and(|q| q.other == number && self.faces(p.kind, q.kind))
    }

    // Whether every point fits its other side.
    pub fn fit(&self) -> bool {
        (0u32..)
            .zip(self.all.iter())
            .all(|(number, p)| self.fits_at(number, *p))
    }

    // Which points are written, in their order: of two sides the one that comes first.
    pub fn layout(&self, heap: Global) -> Result<Layout, AllocError> {
        let mut sides: Vec<Option<Side>> = vec![in heap; None; self.all.len()]?;
        let mut written = Vec::new(heap);
        for (i, p) in self.all.iter().enumerate() {
            if let Some(None) = sides.get(i) {
                let k = written.len().min(256) as u32;
                put_side(&mut sides, p.other as usize, Side::Far(k));
                put_side(&mut sides, i, Side::Near(k));
                written.push(p.kind)?;
            }
        }
        Ok(Layout { sides, written })
    }
}

fn put_side(sides: &mut Vec<Option<Side>>, i: usize, side: Side) {
    if let Some(place) = sides.get_mut(i) {
        *place = Some(side);
    }
}

impl Layout {
    // Which side of which written point a point is.
    pub fn side(&self, point: u32) -> Option<Side> {
        self.sides.get(point as usize).copied().flatten()
    }

    // A point by its protocol's name.
    pub fn name(&self, point: u32) -> Name {
        let (before, number) = match self.side(point) {
            Some(Side::Near(k)) => ("P", k),
            Some(Side::Far(k)) => ("other P", k),
            None => ("?", point),
        };
        Name { before, number }
    }
}
