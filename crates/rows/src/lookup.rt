// Points and processes of rows, by their numbers, in constant time.
ghost use Rattle.std.specs.Prelude.{◌≡◌, ◌+◌, ◌≤◌, length, IfSome, slice_index};

use crate::decode::{Head, PointKind};
use crate::map::Map;
pub use crate::numbers::{other_of, point_of, process_of};

// Words, no more than a program may have, with what the reader found in them.
#[derive(Clone, Copy)]
pub struct Rows<'a> {
    pub words: &'a [u32],
    pub map: &'a Map,
    pub ghost short: { length words.now ≤ 16384 },
}

impl Rows<'_> {
    ghost use Rattle.rows.specs.Mapped.{Of, PointIs, OtherIs, ProcessIs};

    // What a point says, if it is there.
    pub fn point(&self, point: u32) -> Option<PointKind>
        ensures { Of self.now (λ g. PointIs g point result) }
    {
        point_of(self.words, self.map, point)
    }

    // The other side's point, if the point is there.
    pub fn other(&self, point: u32) -> Option<u32>
        ensures { Of self.now (λ g. OtherIs g point result) }
    {
        other_of(self.words, self.map, point)
    }

    // The beginning of a process, if it is there.
    pub fn process(&self, process: u32) -> Option<Head>
        ensures within { IfSome result (λ h. (h.talks + h.count ≤ h.body) × (h.body ≤ length self.now.words.now)) }
        ensures is { Of self.now (λ g. ProcessIs self.now.words.now self.now.map.now.second g process result) }
    {
        process_of(self.words, self.map, process)
    }
}

// The word at a place, or 0 past the end.
pub fn word(p: &[u32], at: usize) -> u32
    ensures { result ≡ slice_index p.now at }
{
    p.get(at).copied().unwrap_or(0)
}
