// The end at which a process waits for the other side.
ghost use Rattle.records.specs.Records.{record_of};
ghost use Rattle.jams.specs.Told.{WaitsAt};

use records::process::{End, Record, end_at, place};
use rows::narrow::{conversation_in, talk_at};

// The end at which a process waits, if it gives, takes, chooses or offers in a conversation that it has.
pub fn waits_at(p: &[u32], process: &Record) -> Option<End>
    ensures { WaitsAt p.now (record_of process.now) result }
{
    let what = talk_at(p, place(process))?;
    end_at(process, conversation_in(what))
}
