// Two processes that wait at the two ends of a line take a step together, if one gives and the other takes, or one
// chooses and the other offers.
ghost use Rattle.std.specs.Prelude.{◌≡◌, ℕ, ◌<◌, ◌≤◌, List, length, if◌then◌else◌, nat_eq, slice_index};
ghost use Rattle.records.specs.Records.{record_at};
ghost use Rattle.rows.specs.declared.decode.Instruction.TheVariants.{Take, Offer};
ghost use Rattle.turns.specs.Meeting.{Met, Exchanged, Giving, Choosing, Doing};

use evaluation::expressions::evaluate;
use records::process::{Record, place, set_place, set_variable, variables};
use rows::decode::Instruction;
use rows::lookup::Rows;
use rows::map::Map;
use rows::narrow::talk_at;

// Process i, which is at this instruction, and process j take a step together, if they are at what fits.
pub fn exchange(
    rows: &Rows<'_>,
    processes: &mut [Record],
    what: Instruction,
    i: usize,
    j: usize,
) -> bool
    requires first { i < length processes.old }
    requires second { j < length processes.old }
    requires doing { Doing rows.now.words.now processes.old i what }
    ensures { Exchanged rows.now.words.now rows.now.map.now.second processes.old processes.new i j result }
{
    match what {
        Instruction::Give { value, .. } => give_to(rows, processes, i, value, j),
        Instruction::Take {
            conversation,
            variable,
            next,
        } => take_from(rows, processes, i, conversation, variable, next, j),
        Instruction::Choose { way, next, .. } => choose_at(rows, processes, i, way, next, j),
        Instruction::Offer {
            conversation,
            first,
        } => offer_to(rows, processes, i, conversation, first, j),
        _ => false,
    }
}

// Gives the value at a place to the second, if that takes.
fn give_to(rows: &Rows<'_>, processes: &mut [Record], i: usize, value: usize, j: usize) -> bool
    requires first { i < length processes.old }
    requires second { j < length processes.old }
    requires gives { Giving rows.now.words.now (record_at processes.old i).place value }
    ensures { (m : List ℕ) → Met rows.now.words.now m processes.old processes.new i j result }
{
    let Some(Instruction::Take { variable, next, .. }) = talk_at(rows.words, place(&processes[j]))
    else {
        return false;
    };
    let given = evaluate(rows.words, value, 256, variables(&processes[i]));
    set_variable(&mut processes[j], variable, given.value);
    set_place(&mut processes[j], next as u32);
    set_place(&mut processes[i], given.next as u32);
    true
}

// Chooses a way of the second, if that offers.
fn choose_at(
    rows: &Rows<'_>,
    processes: &mut [Record],
    i: usize,
    way: u32,
    next: usize,
    j: usize,
) -> bool
    requires first { i < length processes.old }
    requires second { j < length processes.old }
    requires chooses { Choosing rows.now.words.now (record_at processes.old i).place way next }
    ensures { Met rows.now.words.now rows.now.map.now.second processes.old processes.new i j result }
{
    let at = place(&processes[j]);
    let Some(Instruction::Offer { first, .. }) = talk_at(rows.words, at) else {
        return false;
    };
    let to = way_at(rows.map, at, way, first);
    set_place(&mut processes[i], next as u32);
    set_place(&mut processes[j], to);
    true
}

// Takes into a variable what the second gives, if it gives.
fn take_from(
    rows: &Rows<'_>,
    processes: &mut [Record],
    i: usize,
    conversation: u32,
    variable: u32,
    next: usize,
    j: usize,
) -> bool
    requires first { i < length processes.old }
    requires second { j < length processes.old }
    requires doing { Doing rows.now.words.now processes.old i (Take conversation variable next) }
    ensures { (m : List ℕ) → Met rows.now.words.now m processes.old processes.new j i result }
{
    let Some(Instruction::Give { value, .. }) = talk_at(rows.words, place(&processes[j])) else {
        return false;
    };
    let given = evaluate(rows.words, value, 256, variables(&processes[j]));
    set_variable(&mut processes[i], variable, given.value);
    set_place(&mut processes[i], next as u32);
    set_place(&mut processes[j], given.next as u32);
    true
}

// Goes the way that the second chooses, if it chooses.
fn offer_to(
    rows: &Rows<'_>,
    processes: &mut [Record],
    i: usize,
    conversation: u32,
    first: usize,
    j: usize,
) -> bool
    requires first { i < length processes.old }
    requires second { j < length processes.old }
    requires doing { Doing rows.now.words.now processes.old i (Offer conversation first) }
    ensures { Met rows.now.words.now rows.now.map.now.second processes.old processes.new j i result }
{
    let Some(Instruction::Choose { way, next, .. }) = talk_at(rows.words, place(&processes[j]))
    else {
        return false;
    };
    let to = way_at(rows.map, place(&processes[i]), way, first);
    set_place(&mut processes[j], next as u32);
    set_place(&mut processes[i], to);
    true
}

// Where a way begins: the first at a place, the second where the map says.
pub fn way_at(map: &Map, at: usize, way: u32, first: usize) -> u32
    requires at { at < 16384 }
    requires first { first ≤ 16384 }
    ensures { result ≡ (if nat_eq way 0 then first else slice_index map.now.second at) }
{
    if way == 0 {
        return first as u32;
    }
    map.second[at] as u32
}
