// Step after step, each found by looking through all processes.
//
// The engine notes who waits at an end, one process for each. Here nobody is noted, so any number of processes may hold
// one end: what holds between two steps is only that each record is a worker of a configuration that some steps have led
// to. A step is looked for anew each time, and where none is found there is none.
ghost use Rattle.std.specs.Prelude.{◌^◌, ◌<◌, ◌≤◌, length};
ghost use Rattle.engine.specs.Whole.{Readable};
ghost use Rattle.looking.specs.Looking.{StepsOn, Going, ComesTo};

use crate::advance::Progress;
use crate::search::any_step;
use engine::order::Order;
use engine::shown::write_down;
use records::process::Record;
use rows::lookup::Rows;
use turns::turn::Trouble;

// Where a run stands: how many processes there are, how many numbers were shown, and the order.
#[derive(Clone, Copy, PartialEq, Eq, Debug)]
pub struct Look {
    pub count: usize,
    pub total: usize,
    pub order: Order,
}

// One step of a process that is drawn, or of the first after it that can take one; false where none is possible.
fn look_once(
    rows: &Rows<'_>,
    processes: &mut [Record],
    shown: &mut [u32],
    at: &mut Look,
) -> Result<bool, Trouble>
    requires readable { Readable rows.now.words.now rows.now.map.now }
    requires some { 0 < at.old.count }
    requires fits { at.old.count ≤ length processes.old }
    requires code { length processes.old < 2 ^ 32 }
    ensures { StepsOn rows.now.words.now rows.now.map.now processes.old processes.new shown.old shown.new at.old at.new result }
{
    let count = at.count;
    let first = at.order.draw_place(count);
    let other = at.order.draw_place(count);
    let Some(step) = any_step(rows, processes, count, first, other)? else {
        return Ok(false);
    };
    match step {
        Progress::On => {}
        Progress::Shown(value) => at.total = write_down(shown, at.total, value),
        Progress::Started => at.count = count + 1,
    }
    Ok(true)
}

// Runs on from there until no step is possible any more, and says where the run stands then. Where there are too many
// processes, or somebody would have too much, it stops.
pub fn look_on(
    rows: &Rows<'_>,
    processes: &mut [Record],
    shown: &mut [u32],
    from: Look,
) -> Result<Look, Trouble>
    requires some { 0 < from.count }
    requires fits { from.count ≤ length processes.old }
    requires code { length processes.old < 2 ^ 32 }
    requires going { Going rows.now.words.now rows.now.map.now processes.old shown.old from }
    ensures { ComesTo rows.now.words.now rows.now.map.now processes.old processes.new shown.old shown.new from result }
{
    let mut at = from;
    while look_once(rows, processes, shown, &mut at)? {}
    Ok(at)
}
