// A step of a process by itself, without regard to who else can go on.
ghost use Rattle.std.specs.Prelude.{◌≡◌, ◌^◌, ◌<◌, ◌≤◌, length};
ghost use Rattle.model.specs.Steps.{running};
ghost use Rattle.records.specs.Records.{record_at};
ghost use Rattle.rows.specs.declared.decode.Instruction.TheVariants.{Start, Become};
ghost use Rattle.turns.specs.Meeting.{Doing};
ghost use Rattle.engine.specs.Whole.{Readable};
ghost use Rattle.looking.specs.Moving.{told, NotAlone, Advanced};

use records::process::{Record, Standing, halt, place, turns};
use rows::decode::{Call, Instruction, instruction_at};
use rows::lookup::Rows;
use starting::heads::process_at;
use starting::start::{start, turn_into};
use turns::alone::{assign, fork, show};
use turns::turn::{Trouble, Turn};

// A step that was taken: one in which nothing is seen, one in which a number was shown, or one with which a new process
// begins.
#[derive(Clone, Copy, PartialEq, Eq, Debug)]
pub enum Progress {
    On,
    Shown(u32),
    Started,
}

// What a turn of process i comes to; none where no step was taken. Only the first process shows.
fn as_told(turn: Turn, i: u32, most: usize, count: usize) -> Result<Option<Progress>, Trouble>
    ensures { result ≡ told i most count turn }
{
    match turn {
        Turn::On => Ok(Some(Progress::On)),
        Turn::Shown(value) => {
            if i == 0 {
                return Ok(Some(Progress::Shown(value)));
            }
            Ok(Some(Progress::On))
        }
        Turn::Both(_) => Ok(Some(Progress::On)),
        Turn::Started => {
            if count < most {
                return Ok(Some(Progress::Started));
            }
            Err(Trouble::Crowded)
        }
        Turn::Off => Ok(None),
    }
}

// The process starts another, is out of turns, or waits for ever as there is no such process.
fn advance_start(
    rows: &Rows<'_>,
    processes: &mut [Record],
    count: usize,
    i: u32,
    call: Call,
) -> Result<Option<Progress>, Trouble>
    requires readable { Readable rows.now.words.now rows.now.map.now }
    requires there { i < count }
    requires fits { count ≤ length processes.old }
    requires code { length processes.old < 2 ^ 32 }
    requires runs { (record_at processes.old i).state ≡ running }
    requires doing { Doing rows.now.words.now processes.old i (Start call) }
    ensures { Advanced rows.now.words.now rows.now.map.now processes.old processes.new (length processes.old) count (NotAlone rows.now.words.now rows.now.map.now processes.old i) result }
{
    if turns(&processes[i as usize]) == 0 {
        halt(&mut processes[i as usize], Standing::Spent);
        return Ok(Some(Progress::On));
    }
    let Some(_) = process_at(rows, call.process) else {
        return Ok(None);
    };
    let most = processes.len();
    let turn = start(rows, processes, count, i, call)?;
    as_told(turn, i, most, count)
}

// The process becomes another, is out of turns, or waits for ever as there is no such process.
fn advance_become(
    rows: &Rows<'_>,
    processes: &mut [Record],
    count: usize,
    i: u32,
    call: Call,
) -> Result<Option<Progress>, Trouble>
    requires readable { Readable rows.now.words.now rows.now.map.now }
    requires there { i < count }
    requires fits { count ≤ length processes.old }
    requires runs { (record_at processes.old i).state ≡ running }
    requires doing { Doing rows.now.words.now processes.old i (Become call) }
    ensures { Advanced rows.now.words.now rows.now.map.now processes.old processes.new (length processes.old) count (NotAlone rows.now.words.now rows.now.map.now processes.old i) result }
{
    if turns(&processes[i as usize]) == 0 {
        halt(&mut processes[i as usize], Standing::Spent);
        return Ok(Some(Progress::On));
    }
    let Some(_) = process_at(rows, call.process) else {
        return Ok(None);
    };
    let most = processes.len();
    let turn = turn_into(rows, processes, count, i, call)?;
    as_told(turn, i, most, count)
}

// Process i, which is running, takes a step by itself, if it can; none where it cannot. What is odd is that it would have
// more conversations or variables than there is room for.
pub fn advance(
    rows: &Rows<'_>,
    processes: &mut [Record],
    count: usize,
    i: u32,
) -> Result<Option<Progress>, Trouble>
    requires readable { Readable rows.now.words.now rows.now.map.now }
    requires there { i < count }
    requires fits { count ≤ length processes.old }
    requires code { length processes.old < 2 ^ 32 }
    requires runs { (record_at processes.old i).state ≡ running }
    ensures { Advanced rows.now.words.now rows.now.map.now processes.old processes.new (length processes.old) count (NotAlone rows.now.words.now rows.now.map.now processes.old i) result }
{
    let most = processes.len();
    let Some(what) = instruction_at(rows.words, place(&processes[i as usize])) else {
        return Ok(None);
    };
    match what {
        Instruction::Stop => {
            halt(&mut processes[i as usize], Standing::Stopped);
            Ok(Some(Progress::On))
        }
        Instruction::Set { variable, value } => {
            let turn = assign(rows, processes, count, i, variable, value);
            as_told(turn, i, most, count)
        }
        Instruction::If { condition } => {
            let turn = fork(rows, processes, count, i, condition);
            as_told(turn, i, most, count)
        }
        Instruction::Show { value } => {
            let turn = show(rows, processes, count, i, value);
            as_told(turn, i, most, count)
        }
        Instruction::Start { call } => advance_start(rows, processes, count, i, call),
        Instruction::Become { call } => advance_become(rows, processes, count, i, call),
        _ => Ok(None),
    }
}
