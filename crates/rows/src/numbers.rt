// Points and processes of any words and any map, by their numbers.
ghost use Rattle.std.specs.Prelude.{◌+◌, ◌≤◌, length, IfSome};
ghost use Rattle.model.specs.Program.{Program};
ghost use Rattle.rows.specs.Mapped.{Known, PointIs, OtherIs, ProcessIs};

use crate::decode::{Head, PointKind, head_at, point_at};
use crate::map::Map;

// What a point says, if it is there.
pub fn point_of(p: &[u32], map: &Map, point: u32) -> Option<PointKind>
    ensures { (g : Program) → Known p.now map.now g → PointIs g point result }
{
    point_at(p, map.points.get(point)?)
}

// The other side's point, if the point is there.
pub fn other_of(p: &[u32], map: &Map, point: u32) -> Option<u32>
    ensures { (g : Program) → Known p.now map.now g → OtherIs g point result }
{
    let i = point as usize;
    if i >= map.points.count {
        return None;
    }
    p.get(map.sides..)?.get(i).copied()
}

// The beginning of a process, if it is there.
pub fn process_of(p: &[u32], map: &Map, process: u32) -> Option<Head>
    ensures within { IfSome result (λ h. (h.talks + h.count ≤ h.body) × (h.body ≤ length p.now)) }
    ensures is { (g : Program) → Known p.now map.now g → ProcessIs p.now map.now.second g process result }
{
    head_at(p, map.processes.get(process)?)
}
