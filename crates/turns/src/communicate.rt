// A turn of a process that gives, takes, chooses or offers: it takes a step together with the one that waits at the
// facing end, or is noted as waiting.
ghost use Rattle.std.specs.Prelude.{◌≡◌, ◌-◌, ◌^◌, ◌<◌, ◌≤◌, length};
ghost use Rattle.records.specs.Records.{endpoint};
ghost use Rattle.turns.specs.Meeting.{Doing};
ghost use Rattle.turns.specs.Turning.{Communicates, Parked, Unwritten};

use crate::meeting::exchange;
use crate::turn::{Trouble, Turn};
use queues::lines::{Line, facing_end, forget, note, waiter};
use records::process::{End, Record, end_at};
use rows::decode::Instruction;
use rows::lookup::Rows;

// Notes that a process waits at an end, if nobody else does.
fn park(lines: &mut [Line], e: End, i: u32) -> bool
    requires room { e.line < length lines.old }
    requires code { i < 2 ^ 32 - 1 }
    ensures { Parked lines.old lines.new (endpoint e) i result }
{
    if waiter(lines, e).is_some() {
        return false;
    }
    note(lines, e, i);
    true
}

// A turn of process i, which waits in a conversation with this instruction.
pub fn communicate(
    rows: &Rows<'_>,
    processes: &mut [Record],
    lines: &mut [Line],
    count: usize,
    what: Instruction,
    i: u32,
    conversation: u32,
) -> Result<Turn, Trouble>
    requires doing { Doing rows.now.words.now processes.old i what }
    requires there { i < count }
    requires code { count < 2 ^ 32 }
    requires records { count ≤ length processes.old }
    requires sides { count ≤ length lines.old }
    ensures communicates { Communicates rows.now.words.now rows.now.map.now processes.old lines.old processes.new lines.new count i conversation result }
    ensures unwritten { Unwritten processes.old processes.new result }
{
    let Some(e) = end_at(&processes[i as usize], conversation) else {
        return Ok(Turn::Off);
    };
    if e.line as usize >= count {
        return Ok(Turn::Off);
    }
    let far = facing_end(e);
    if let Some(j) = waiter(lines, far) {
        if j as usize >= count {
            return Ok(Turn::Off);
        }
        if exchange(rows, processes, what, i as usize, j as usize) {
            forget(lines, far);
            return Ok(Turn::Both(j));
        }
    }
    if park(lines, e, i) {
        return Ok(Turn::Off);
    }
    Err(Trouble::Odd)
}
