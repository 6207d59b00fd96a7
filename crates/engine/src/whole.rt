// A whole run of a program in lent words.
ghost use Rattle.std.specs.Prelude.{◌*◌, ◌≤◌, length};
ghost use Rattle.engine.specs.Whole.{Readable, RunsTo};

use crate::order::Order;
use crate::out::some_at;
use crate::set_up::{Unready, set_up_lent};
use crate::step::Run;
use records::process::Standing;
use rows::lookup::Rows;
use turns::turn::Trouble;

// No step is possible any more, with so many processes and so many numbers shown, and some out of turns or waiting.
#[derive(Clone, Copy, PartialEq, Eq, Debug)]
pub struct Rest {
    pub count: usize,
    pub total: usize,
    pub spent: bool,
    pub waiting: bool,
}

// Runs the program that the rows are, with at most so many processes, and so many turns for the first.
pub fn run_whole(
    rows: &Rows<'_>,
    most: u32,
    turns: u32,
    order: Order,
    shown: &mut [u32],
    work: &mut [u32],
) -> Result<Rest, Trouble>
    requires lent { 67 * most ≤ length work.old }
    requires readable { Readable rows.now.words.now rows.now.map.now }
    ensures { RunsTo rows.now.words.now rows.now.map.now most turns shown.old shown.new result }
{
    let mut run = match set_up_lent(rows, work, most, turns, order) {
        Ok(run) => run,
        Err(Unready::Crowded) => return Err(Trouble::Crowded),
        Err(Unready::Empty) => {
            return Ok(Rest {
                count: 0,
                total: 0,
                spent: false,
                waiting: false,
            });
        }
    };
    run.run_on(rows, shown)?;
    let Run {
        processes,
        count,
        total,
        ..
    } = run;
    Ok(Rest {
        count,
        total,
        spent: some_at(processes, count, Standing::Spent),
        waiting: some_at(processes, count, Standing::Running),
    })
}
