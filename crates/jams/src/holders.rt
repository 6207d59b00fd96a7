// Who holds an end of a line.
ghost use Rattle.std.specs.Prelude.{◌≤◌, length};
ghost use Rattle.records.specs.Records.{record_of, endpoint};
ghost use Rattle.jams.specs.Told.{HoldsEnd, HolderIs, NoneBefore};

use records::process::{End, Record, end_at};

// A process has this end among its conversations.
pub fn holds_end(process: &Record, e: End) -> bool
    ensures { HoldsEnd (record_of process.now) (endpoint e) result }
{
    for c in 0..16 {
        if end_at(process, c) == Some(e) {
            return true;
        }
    }
    false
}

// The first of so many processes that has this end among its conversations.
pub fn holder(processes: &[Record], count: u32, e: End) -> Option<u32>
    requires { count ≤ length processes.now }
    ensures holder { HolderIs processes.now count (endpoint e) result }
    ensures first { NoneBefore processes.now (endpoint e) result }
{
    for (j, process) in processes[..count as usize].iter().enumerate() {
        if holds_end(process, e) {
            return Some(j as u32);
        }
    }
    None
}
