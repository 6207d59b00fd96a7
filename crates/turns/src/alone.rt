// Turns of a process by itself: it stops, puts a number into a variable, takes one of two ways, or shows a number.
ghost use Rattle.std.specs.Prelude.{◌≡◌, ◌<◌, ◌≤◌, length};
ghost use Rattle.rows.specs.declared.decode.Instruction.TheVariants.{Stop, Set, If, Show};
ghost use Rattle.turns.specs.Turning.{Acts, Goes};
ghost use Rattle.turns.specs.Meeting.{Doing};

use crate::turn::Turn;
use evaluation::expressions::evaluate;
use records::process::{Record, Standing, halt, place, set_place, set_variable, variables};
use rows::lookup::Rows;

// The process stops.
pub fn stop(rows: &Rows<'_>, processes: &mut [Record], count: usize, i: u32) -> Turn
    requires there { i < count }
    requires records { count ≤ length processes.old }
    requires doing { Doing rows.now.words.now processes.old i Stop }
    ensures { Acts rows.now.words.now rows.now.map.now processes.old processes.new count i result }
{
    halt(&mut processes[i as usize], Standing::Stopped);
    Turn::Off
}

// The process puts the value at a place into a variable.
pub fn assign(
    rows: &Rows<'_>,
    processes: &mut [Record],
    count: usize,
    i: u32,
    variable: u32,
    value: usize,
) -> Turn
    requires there { i < count }
    requires records { count ≤ length processes.old }
    requires doing { Doing rows.now.words.now processes.old i (Set variable value) }
    ensures acts { Acts rows.now.words.now rows.now.map.now processes.old processes.new count i result }
    ensures goes { Goes result }
{
    let own = &mut processes[i as usize];
    let given = evaluate(rows.words, value, 256, variables(own));
    set_variable(own, variable, given.value);
    set_place(own, given.next as u32);
    Turn::On
}

// The process takes its second way if the value at a place is 0, else its first.
pub fn fork(
    rows: &Rows<'_>,
    processes: &mut [Record],
    count: usize,
    i: u32,
    condition: usize,
) -> Turn
    requires there { i < count }
    requires records { count ≤ length processes.old }
    requires doing { Doing rows.now.words.now processes.old i (If condition) }
    ensures acts { Acts rows.now.words.now rows.now.map.now processes.old processes.new count i result }
    ensures goes { Goes result }
{
    let own = &mut processes[i as usize];
    let given = evaluate(rows.words, condition, 256, variables(own));
    let next = if given.value == 0 {
        rows.map.second[place(own)] as u32
    } else {
        given.next as u32
    };
    set_place(own, next);
    Turn::On
}

// The process shows the value at a place.
pub fn show(rows: &Rows<'_>, processes: &mut [Record], count: usize, i: u32, value: usize) -> Turn
    requires there { i < count }
    requires records { count ≤ length processes.old }
    requires doing { Doing rows.now.words.now processes.old i (Show value) }
    ensures acts { Acts rows.now.words.now rows.now.map.now processes.old processes.new count i result }
    ensures goes { Goes result }
{
    let own = &mut processes[i as usize];
    let given = evaluate(rows.words, value, 256, variables(own));
    set_place(own, given.next as u32);
    Turn::Shown(given.value)
}
