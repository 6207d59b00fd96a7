// The beginning of a process, with the points at which its conversations begin.
ghost use Rattle.std.specs.Prelude.{◌≡◌, ◌<◌, length, MatchOption};
ghost use Rattle.judging.specs.Program.{BeginsAt};
ghost use Rattle.judging.specs.Standing.{stand};
ghost use Rattle.model.specs.Keeps.{begins};
ghost use Rattle.rows.specs.Mapped.{Of};

use crate::conversations::Conversations;
use rows::decode::Head;
use rows::lookup::Rows;

// Both of them, if the process is there.
pub(crate) fn beginning<'a>(rows: &Rows<'a>, process: u32) -> Option<(Head, &'a [u32])>
    ensures { Of rows.now (λ g. BeginsAt rows.now g process result) }
{
    let head = rows.process(process)?;
    Some((head, &rows.words[head.talks..head.talks + head.count]))
}

// The conversations with which a process begins, at these points; none where they are too many.
pub(crate) fn begun(points: &[u32]) -> Option<Conversations>
    ensures { MatchOption result (16 < length points.now) (λ c. stand c ≡ begins points.now) }
{
    let mut all = Conversations::none();
    for point in points {
        all.add(*point)?;
    }
    Some(all)
}
