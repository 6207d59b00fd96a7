// The table of a run that has jammed: who is left, where, and who holds the other end.
ghost use Rattle.std.specs.Prelude.{◌≡◌, ◌<◌, ◌≤◌, length};
ghost use Rattle.model.specs.Steps.{running};
ghost use Rattle.records.specs.Records.{record_at};
ghost use Rattle.exploring.specs.Table.{RowOf, Filled};

use crate::answers::Left;
use jams::holders::holder;
use jams::waits::waits_at;
use looking::standing::is_running;
use queues::lines::facing_end;
use records::process::{Record, place};

// The row of process i.
fn row_of(p: &[u32], processes: &[Record], count: u32, i: u32) -> Left
    requires there { i < count }
    requires records { count ≤ length processes.now }
    requires runs { (record_at processes.now i).state ≡ running }
    ensures { RowOf p.now processes.now count i result }
{
    let process = &processes[i as usize];
    let end = waits_at(p, process);
    Left {
        process: i,
        place: place(process) as u32,
        end,
        holder: match end {
            None => None,
            Some(e) => holder(processes, count, facing_end(e)),
        },
    }
}

// Fills the table, as far as there is room, and counts who is left.
pub fn fill(p: &[u32], processes: &[Record], count: u32, left: &mut [Left]) -> usize
    requires { count ≤ length processes.now }
    ensures { Filled p.now processes.now count left.old left.new result }
{
    let mut n = 0;
    for i in 0..count {
        if is_running(&processes[i as usize]) {
            if n < left.len() {
                left[n] = row_of(p, processes, count, i);
            }
            n += 1;
        }
    }
    n
}
