// How a process stands.
ghost use Rattle.model.specs.Steps.{running};
ghost use Rattle.records.specs.Records.{record_of};
ghost use Rattle.engine.specs.Outs.{Same};

use records::process::{Record, Standing, state};

// A process goes on or waits.
pub fn is_running(process: &Record) -> bool
    ensures { Same (record_of process.now).state running result }
{
    state(process) == Standing::Running
}
