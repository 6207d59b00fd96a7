// Whether a program that was read keeps to its conversations.
ghost use Rattle.std.specs.Prelude.{◌≡◌};
ghost use Rattle.judging.specs.Program.{ProcessKeeps};
ghost use Rattle.model.specs.Keeps.{then, all_keep, root, kept};
ghost use Rattle.model.specs.Program.{nth, Program};
ghost use Rattle.rows.specs.Mapped.{Known, Of};

use crate::beginning::{beginning, begun};
use crate::points::points_keep;
use crate::setting::Setting;
use rows::lookup::Rows;
use rows::map::Map;

// Whether a process keeps to its conversations.
fn process_keeps(rows: &Rows<'_>, process: u32) -> bool
    ensures { Of rows.now (λ g. result ≡ then (nth g.procs process) (ProcessKeeps g process)) }
{
    let Some((head, points)) = beginning(rows, process) else {
        return false;
    };
    let Some(conversations) = begun(points) else {
        return false;
    };
    let setting = Setting {
        rows: *rows,
        variables: head.variables,
        root: process == 0,
    };
    setting.keeps_from(head.body, conversations, 256).is_some()
}

// Whether all processes do.
fn processes_keep(rows: &Rows<'_>) -> bool
    ensures { Of rows.now (λ g. result ≡ all_keep g 0 g.procs) }
{
    (0..rows.map.processes.count.min(64) as u32).all(|process| process_keeps(rows, process))
}

// Whether process 0 is there and begins without conversations and numbers.
fn root_keeps(rows: &Rows<'_>) -> bool
    ensures { Of rows.now (λ g. result ≡ root g) }
{
    rows.process(0)
        .is_some_and(|head| head.count == 0 && head.numbers == 0)
}

// Whether the program that rows are keeps to its conversations.
fn rows_keep(rows: &Rows<'_>) -> bool
    ensures { Of rows.now (λ g. result ≡ kept g) }
{
    root_keeps(rows) && points_keep(rows) && processes_keep(rows)
}

// Whether a program keeps to its conversations, from its words and its map.
pub fn program_keeps(p: &[u32], map: &Map) -> bool
    ensures { (g : Program) → Known p.now map.now g → result ≡ kept g }
{
    if p.len() > 16384 {
        return false;
    }
    rows_keep(&Rows { words: p, map })
}
