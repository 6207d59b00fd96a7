// One step of any process that can take one: all are looked through, from one that was drawn on.
ghost use Rattle.std.specs.Prelude.{◌≡◌, ◌^◌, ◌<◌, ◌≤◌, length};
ghost use Rattle.engine.specs.Whole.{Readable};
ghost use Rattle.looking.specs.Moving.{Advanced};
ghost use Rattle.looking.specs.Searching.{NoStep, AtEnd};

use crate::advance::{Progress, advance};
use crate::pairs::{around, meet_any};
use crate::standing::is_running;
use records::process::Record;
use rows::lookup::Rows;
use turns::turn::Trouble;

// Process i takes a step, by itself or together with another, if it can; the others are looked through from one on.
pub fn go_on(
    rows: &Rows<'_>,
    processes: &mut [Record],
    count: usize,
    i: usize,
    from: usize,
) -> Result<Option<Progress>, Trouble>
    requires readable { Readable rows.now.words.now rows.now.map.now }
    requires there { i < count }
    requires from { from < count }
    requires fits { count ≤ length processes.old }
    requires code { length processes.old < 2 ^ 32 }
    ensures { Advanced rows.now.words.now rows.now.map.now processes.old processes.new (length processes.old) count (NoStep rows.now.words.now rows.now.map.now processes.old count i) result }
{
    if !is_running(&processes[i]) {
        return Ok(None);
    }
    if let Some(step) = advance(rows, processes, count, i as u32)? {
        return Ok(Some(step));
    }
    if meet_any(rows, processes, count, i, from) {
        return Ok(Some(Progress::On));
    }
    Ok(None)
}

// The first process that can, from one on, takes a step; for each, the others are looked through from another on.
pub fn any_step(
    rows: &Rows<'_>,
    processes: &mut [Record],
    count: usize,
    first: usize,
    from: usize,
) -> Result<Option<Progress>, Trouble>
    requires readable { Readable rows.now.words.now rows.now.map.now }
    requires first { first < count }
    requires from { from < count }
    requires fits { count ≤ length processes.old }
    requires code { length processes.old < 2 ^ 32 }
    ensures { Advanced rows.now.words.now rows.now.map.now processes.old processes.new (length processes.old) count (AtEnd rows.now.words.now rows.now.map.now processes.old count) result }
{
    for k in 0..count {
        if let Some(step) = go_on(rows, processes, count, around(first, k, count), from)? {
            return Ok(Some(step));
        }
    }
    Ok(None)
}
