// Where the processes of a program begin.
ghost use Rattle.std.specs.Prelude.{◌≤◌, length, IfSome};
ghost use Rattle.starting.specs.Heads.{HeadOf};

use rows::decode::Head;
use rows::lookup::Rows;

// The beginning of a process of the program, if there is such a process.
pub fn process_at(rows: &Rows<'_>, number: u32) -> Option<Head>
    ensures is { HeadOf rows.now.words.now rows.now.map.now number result }
    ensures within { IfSome result (λ h. h.body ≤ length rows.now.words.now) }
{
    rows.process(number)
}
