// The sections of the rows: points, other sides, processes; and whether the whole is a program.
ghost use Rattle.std.specs.Borrow.{sem};
ghost use Rattle.std.specs.Prelude.{◌≡◌, ◌≤◌, length, IfSome};
ghost use Rattle.model.specs.Rows.{row_p};
ghost use Rattle.rows.specs.Decode.{said};
ghost use Rattle.rows.specs.Lending.{LeavesMap};
ghost use Rattle.rows.specs.Reading.{SameBelow};
ghost use Rattle.rows.specs.Sections.{PointsEnd, ProcessEnd, ProcessesEnd, Fills, ReadSays};

use crate::decode::{PointKind, head_at, point_at};
use crate::lookup::Rows;
use crate::map::{Map, Places};
use crate::unread::Unread;

// How many words a point has.
fn point_size(kind: PointKind) -> usize
    ensures { result ≡ length (row_p (said kind)) }
{
    match kind {
        PointKind::Over => 1,
        PointKind::Gives(_) | PointKind::Takes(_) => 2,
        PointKind::Chooses(..) | PointKind::Offers(..) => 3,
    }
}

impl Unread<'_> {
    // The place behind so many points that stand one after the other from a place on, if they do, with the place of each.
    fn points_end(&self, at: usize, count: usize, places: &mut Places<256>) -> Option<usize>
        requires { count ≤ 256 }
        ensures places { PointsEnd self.now.words.now places.new.at at count result }
        ensures counted { IfSome result (λ _. places.new.count ≡ count) }
    {
        let mut here = at;
        places.count = 0;
        for _ in 0..count {
            let kind = point_at(self.words, here)?;
            places.add(here as u16)?;
            here += point_size(kind);
        }
        Some(here)
    }

    // The place behind the process that stands at a place, if one does that keeps the limits.
    fn process_end(&self, at: usize, second: &mut [u16; 16384]) -> Option<usize>
        ensures ends { ProcessEnd self.now.words.now second.new at result }
        ensures before { SameBelow at second.old second.new }
    {
        let head = head_at(self.words, at)?;
        if head.count > 16 || head.variables > 16 || head.numbers > head.variables {
            return None;
        }
        self.action_end(head.body, 256, 16 - head.count as u32, second)
    }

    // The places of the processes that stand one after the other from a place to the end of the rows, if processes that
    // keep the limits do; the table then has the second ways of what they do.
    fn processes_end(
        &self,
        at: usize,
        places: &mut Places<64>,
        second: &mut [u16; 16384],
    ) -> Option<()>
        requires { at ≤ length self.now.words.now }
        ensures { ProcessesEnd self.now.words.now places.new.at second.new at places.new.count result }
    {
        let mut here = at;
        places.count = 0;
        while here < self.words.len() {
            places.add(here as u16)?;
            here = self.process_end(here, second)?;
        }
        Some(())
    }
}

// Fills in the map, if the words are a program.
fn fill(program: &[u32], map: &mut Map) -> Option<()>
    ensures { Fills program.now map.new result }
{
    if program.len() > 16384 {
        return None;
    }
    let unread = Unread { words: program };
    let count = *program.first()? as usize;
    if count > 256 {
        return None;
    }
    let sides = unread.points_end(1, count, &mut map.points)?;
    if program.len() - sides < count {
        return None;
    }
    unread.processes_end(sides + count, &mut map.processes, &mut map.second)?;
    map.sides = sides;
    Some(())
}

// The rows of a program, if the words are one. The map is lent for what is found in them, and is that of the program
// when the rows are given back.
pub fn read<'a>(map: &'a mut Map, program: &'a [u32]) -> Option<Rows<'a>>
    ensures* leaves { sem 𝓛 (LeavesMap map.entry result) }
    ensures says { ReadSays program.now result }
{
    fill(program, &mut *map)?;
    Some(Rows {
        words: program,
        map: &*map,
    })
}
