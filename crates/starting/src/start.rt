// Turns in which a process starts another, or becomes another. Both take a turn; who has none left is out of turns.
ghost use Rattle.std.specs.Prelude.{◌≡◌, ◌^◌, ◌<◌, ◌≤◌, length};
ghost use Rattle.rows.specs.declared.decode.Instruction.TheVariants.{Start, Become};
ghost use Rattle.turns.specs.Meeting.{Doing};
ghost use Rattle.turns.specs.Turning.{Unwritten};
ghost use Rattle.starting.specs.Begins.{Begins, Settles};

use crate::begin::{begin, begin_started, release};
use crate::heads::process_at;
use evaluation::handed::{conversations_at, numbers_at};
use records::process::{Record, Standing, ends_count, halt, turns, variables};
use rows::decode::Call;
use rows::lookup::Rows;
use turns::turn::{Trouble, Turn};

// The process starts another, on a new line.
pub fn start(
    rows: &Rows<'_>,
    processes: &mut [Record],
    count: usize,
    i: u32,
    call: Call,
) -> Result<Turn, Trouble>
    requires there { i < count }
    requires fits { count ≤ length processes.old }
    requires code { length processes.old < 2 ^ 32 }
    requires doing { Doing rows.now.words.now processes.old i (Start call) }
    ensures begins { Begins rows.now.words.now rows.now.map.now processes.old processes.new (length processes.old) count i result }
    ensures settles { Settles rows.now.words.now rows.now.map.now processes.old i call result }
    ensures unwritten { Unwritten processes.old processes.new result }
{
    let k = i as usize;
    let left = turns(&processes[k]);
    if left == 0 {
        halt(&mut processes[k], Standing::Spent);
        return Ok(Turn::Off);
    }
    let Some(head) = process_at(rows, call.process) else {
        return Ok(Turn::Off);
    };
    if count >= processes.len() {
        return Err(Trouble::Crowded);
    }
    if call.count > 15 {
        return Err(Trouble::Odd);
    }
    if call.expressions > 16 {
        return Err(Trouble::Odd);
    }
    if ends_count(&processes[k]) > 15 {
        return Err(Trouble::Odd);
    }
    if head.variables > 16 {
        return Err(Trouble::Odd);
    }
    let line = (count - 1) as u32;
    let own = variables(&processes[k]);
    let numbers = numbers_at(rows.words, call.numbers, call.expressions, 256, own);
    let listed = &rows.words[call.conversations..call.conversations + call.count];
    let ends = conversations_at(listed, &processes[k]);
    let variables = call.expressions.max(head.variables) as usize;
    begin_started(
        &mut processes[count],
        head.body as u32,
        left - 1,
        line,
        &ends.ends[..call.count],
        &numbers.values[..variables],
    );
    let kept = left - 1;
    release(&mut processes[k], listed, line, kept, numbers.next as u32);
    Ok(Turn::Started)
}

// The process becomes another.
pub fn turn_into(
    rows: &Rows<'_>,
    processes: &mut [Record],
    count: usize,
    i: u32,
    call: Call,
) -> Result<Turn, Trouble>
    requires there { i < count }
    requires records { count ≤ length processes.old }
    requires doing { Doing rows.now.words.now processes.old i (Become call) }
    ensures begins { Begins rows.now.words.now rows.now.map.now processes.old processes.new (length processes.old) count i result }
    ensures settles { Settles rows.now.words.now rows.now.map.now processes.old i call result }
    ensures unwritten { Unwritten processes.old processes.new result }
{
    let k = i as usize;
    let left = turns(&processes[k]);
    if left == 0 {
        halt(&mut processes[k], Standing::Spent);
        return Ok(Turn::Off);
    }
    let Some(head) = process_at(rows, call.process) else {
        return Ok(Turn::Off);
    };
    if call.count > 16 {
        return Err(Trouble::Odd);
    }
    if call.expressions > 16 {
        return Err(Trouble::Odd);
    }
    if head.variables > 16 {
        return Err(Trouble::Odd);
    }
    let own = variables(&processes[k]);
    let numbers = numbers_at(rows.words, call.numbers, call.expressions, 256, own);
    let listed = &rows.words[call.conversations..call.conversations + call.count];
    let ends = conversations_at(listed, &processes[k]);
    let variables = call.expressions.max(head.variables) as usize;
    let rest = left - 1;
    begin(
        &mut processes[k],
        head.body as u32,
        rest,
        &ends.ends[..call.count],
        &numbers.values[..variables],
    );
    Ok(Turn::On)
}
