// A step of two processes together, where any number of processes may hold the same end of a line.
ghost use Rattle.std.specs.Prelude.{◌≡◌, ◌^◌, ◌<◌, ◌≤◌, length};
ghost use Rattle.model.specs.Steps.{running};
ghost use Rattle.records.specs.Records.{record_at, endpoint};
ghost use Rattle.queues.specs.Slots.{slot};
ghost use Rattle.looking.specs.Pairing.{Faces, Paired, MetOne, MetAny};

use crate::standing::is_running;
use jams::waits::waits_at;
use records::process::{End, Record, place};
use rows::decode::instruction_at;
use rows::lookup::Rows;
use turns::meeting::exchange;

// The place that is so many after another, around so many.
pub fn around(from: usize, k: usize, count: usize) -> usize
    requires from { from < count }
    requires k { k < count }
    requires code { count < 2 ^ 32 }
    ensures is { result ≡ slot count from k }
    ensures there { result < count }
{
    let at = from + k;
    if at < count { at } else { at - count }
}

// These are the two ends of one line.
fn face(e: End, d: End) -> bool
    ensures { Faces (endpoint e) (endpoint d) result }
{
    e.line == d.line && e.far != d.far
}

// Processes i and j take a step together, if they wait at the two ends of one line and are at what fits.
fn exchange_facing(rows: &Rows<'_>, processes: &mut [Record], i: usize, j: usize) -> bool
    requires first { i < length processes.old }
    requires second { j < length processes.old }
    ensures { Paired rows.now.words.now rows.now.map.now.second processes.old processes.new i j result }
{
    let Some(e) = waits_at(rows.words, &processes[i]) else {
        return false;
    };
    let Some(d) = waits_at(rows.words, &processes[j]) else {
        return false;
    };
    if !face(e, d) {
        return false;
    }
    let Some(what) = instruction_at(rows.words, place(&processes[i])) else {
        return false;
    };
    exchange(rows, processes, what, i, j)
}

// Process i takes a step together with process j, if that is another one that is running, and they can.
pub fn meet(rows: &Rows<'_>, processes: &mut [Record], i: usize, j: usize) -> bool
    requires first { i < length processes.old }
    requires second { j < length processes.old }
    ensures { MetOne rows.now.words.now rows.now.map.now.second processes.old processes.new i j result }
{
    if j == i {
        return false;
    }
    if !is_running(&processes[j]) {
        return false;
    }
    exchange_facing(rows, processes, i, j)
}

// Process i, which is running, takes a step together with some other, if it can; the others are looked through from one on.
pub fn meet_any(
    rows: &Rows<'_>,
    processes: &mut [Record],
    count: usize,
    i: usize,
    from: usize,
) -> bool
    requires code { count < 2 ^ 32 }
    requires records { count ≤ length processes.old }
    requires there { i < count }
    requires from { from < count }
    requires runs { (record_at processes.old i).state ≡ running }
    ensures { MetAny rows.now.words.now rows.now.map.now processes.old processes.new count i result }
{
    for k in 0..count {
        if meet(rows, processes, i, around(from, k, count)) {
            return true;
        }
    }
    false
}
