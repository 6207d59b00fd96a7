// One turn of a process, whatever it is at.
ghost use Rattle.std.specs.Prelude.{◌≡◌, ◌^◌, ◌<◌, ◌≤◌, length, None};
ghost use Rattle.rows.specs.Decode.{talk_at};
ghost use Rattle.records.specs.Records.{record_at};
ghost use Rattle.starting.specs.Begins.{Begins};
ghost use Rattle.turns.specs.Turning.{Turns, Unwritten};

use queues::lines::Line;
use records::process::{Record, place};
use rows::decode::{Instruction, instruction_at};
use rows::lookup::Rows;
use rows::narrow::{conversation_in, talk_at};
use starting::start::{start, turn_into};
use turns::alone::{assign, fork, show, stop};
use turns::communicate::communicate;
use turns::turn::{Trouble, Turn};

// A turn of process i, of so many.
pub fn act(
    rows: &Rows<'_>,
    processes: &mut [Record],
    lines: &mut [Line],
    count: usize,
    i: u32,
) -> Result<Turn, Trouble>
    requires there { i < count }
    requires fits { count ≤ length processes.old }
    requires code { length processes.old < 2 ^ 32 }
    requires sides { length processes.old ≤ length lines.old }
    ensures turns { Turns rows.now.words.now rows.now.map.now processes.old lines.old processes.new lines.new (length processes.old) count i result }
    ensures unwritten { Unwritten processes.old processes.new result }
{
    match talk_at(rows.words, place(&processes[i as usize])) {
        Some(what) => communicate(
            rows,
            processes,
            lines,
            count,
            what,
            i,
            conversation_in(what),
        ),
        None => act_alone(rows, processes, count, i),
    }
}

// A turn of process i, which waits for nobody.
fn act_alone(
    rows: &Rows<'_>,
    processes: &mut [Record],
    count: usize,
    i: u32,
) -> Result<Turn, Trouble>
    requires there { i < count }
    requires fits { count ≤ length processes.old }
    requires code { length processes.old < 2 ^ 32 }
    requires alone { None ≡ talk_at rows.now.words.now (record_at processes.old i).place }
    ensures begins { Begins rows.now.words.now rows.now.map.now processes.old processes.new (length processes.old) count i result }
    ensures unwritten { Unwritten processes.old processes.new result }
{
    let Some(what) = instruction_at(rows.words, place(&processes[i as usize])) else {
        return Ok(Turn::Off);
    };
    match what {
        Instruction::Stop => Ok(stop(rows, processes, count, i)),
        Instruction::Set { variable, value } => Ok(assign(
            rows, processes, count, i, variable, value,
        )),
        Instruction::If { condition } => Ok(fork(rows, processes, count, i, condition)),
        Instruction::Show { value } => Ok(show(rows, processes, count, i, value)),
        Instruction::Start { call } => start(rows, processes, count, i, call),
        Instruction::Become { call } => turn_into(rows, processes, count, i, call),
        _ => Ok(Turn::Off),
    }
}
