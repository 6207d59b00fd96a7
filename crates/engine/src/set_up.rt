// The words of a run at its beginning.
ghost use Rattle.std.specs.Prelude.{◌≡◌, ℕ, ◌*◌, ◌^◌, ◌<◌, ◌≤◌, length, slice_index_or, [], ◌∷◌};
ghost use Rattle.engine.specs.Setting.{SetIn, SetUp, Untouched};

use crate::order::Order;
use crate::step::Run;
use queues::lines::Line;
use queues::ring::Queue;
use records::process::Record;
use rows::lookup::Rows;
use starting::begin::begin;
use starting::heads::process_at;

// Why a run cannot begin: not even the first process can be had, or there is no first process.
#[derive(Clone, Copy, PartialEq, Eq, Debug)]
pub enum Unready {
    Crowded,
    Empty,
}

// Lent words, as records, lines and slots of a queue for so many processes.
struct Parts<'a> {
    processes: &'a mut [Record],
    lines: &'a mut [Line],
    slots: &'a mut [u32],
}

fn parted<'a>(work: &'a mut [u32], most: usize) -> Parts<'a>
    requires { 67 * most ≤ length work.old }
    ensures processes { length result.processes.now ≡ most }
    ensures lines { length result.lines.now ≡ most }
    ensures slots { most ≤ length result.slots.now }
{
    let (records, others) = work.split_at_mut(64 * most);
    let (sides, slots) = others.split_at_mut(2 * most);
    let (processes, _) = records.as_chunks_mut::<64>();
    let (lines, _) = sides.as_chunks_mut::<2>();
    Parts {
        processes,
        lines,
        slots,
    }
}

// Nobody waits anywhere.
fn clear(lines: &mut [Line])
    ensures { (k : ℕ) → k < length lines.new → slice_index_or lines.new k [] ≡ 0 ∷ 0 ∷ [] }
{
    for line in lines {
        *line = [0, 0];
    }
}

// Writes the beginning of a run into records, lines and slots, wherever they lie: the first process begins with so many
// turns; whatever was in the words does not matter. The caller makes the run: a `Run` over the first so many records, the
// lines and the slots, with one process, which is first in the queue. Where it is refused, nothing is written.
pub fn set_up(
    rows: &Rows<'_>,
    processes: &mut [Record],
    lines: &mut [Line],
    slots: &mut [u32],
    most: u32,
    turns: u32,
) -> Result<(), Unready>
    requires records { most ≤ length processes.old }
    requires sides { most ≤ length lines.old }
    requires slots { most ≤ length slots.old }
    ensures begins { SetIn rows.now.words.now rows.now.map.now most turns processes.new lines.new slots.new result }
    ensures leaves { Untouched processes.old lines.old slots.old processes.new lines.new slots.new result }
{
    let Some(head) = process_at(rows, 0) else {
        return Err(Unready::Empty);
    };
    if most == 0 {
        return Err(Unready::Crowded);
    }
    if head.variables > 16 {
        return Err(Unready::Empty);
    }
    clear(lines);
    slots[0] = 0;
    let zeros = [0; 16];
    begin(
        &mut processes[0],
        head.body as u32,
        turns,
        &[],
        &zeros[..head.variables as usize],
    );
    Ok(())
}

// A run at its beginning, in records, lines and slots cut from lent words.
pub fn set_up_lent<'a>(
    rows: &Rows<'_>,
    work: &'a mut [u32],
    most: u32,
    turns: u32,
    order: Order,
) -> Result<Run<'a>, Unready>
    requires { 67 * most ≤ length work.old }
    ensures { SetUp rows.now.words.now rows.now.map.now most turns result }
{
    let Parts {
        processes,
        lines,
        slots,
    } = parted(work, most as usize);
    set_up(rows, processes, lines, slots, most, turns)?;
    Ok(Run {
        processes,
        lines,
        ready: Queue {
            slots,
            head: 0,
            count: 1,
        },
        count: 1,
        total: 0,
        order,
    })
}
