// Whether some process is out of turns, or has not stopped.
ghost use Rattle.std.specs.Prelude.{◌≤◌, length};
ghost use Rattle.records.specs.Records.{state_is};
ghost use Rattle.engine.specs.Outs.{SomeAt};

use records::process::{Record, Standing, state};

// One of the first so many processes stands so.
pub fn some_at(processes: &[Record], count: usize, how: Standing) -> bool
    requires { count ≤ length processes.now }
    ensures { SomeAt processes.now count (state_is how) result }
{
    for process in &processes[..count] {
        if state(process) == how {
            return true;
        }
    }
    false
}
