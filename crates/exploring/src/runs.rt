// Whole runs of a program that was read.
ghost use Rattle.std.specs.Prelude.{◌*◌, ◌^◌, ◌<◌, ◌≤◌, length};
ghost use Rattle.engine.specs.Whole.{Readable};
ghost use Rattle.looking.specs.Looking.{Going};
ghost use Rattle.exploring.specs.Exploring.{Tells, LooksOut, RunsOut};

use crate::answers::{Explored, Left};
use crate::table::fill;
use engine::order::Order;
use engine::out::some_at;
use engine::set_up::{Unready, set_up_lent};
use engine::step::Run;
use looking::run::{Look, look_on};
use records::process::{Record, Standing};
use rows::lookup::Rows;
use turns::turn::Trouble;

// What is said of the end of a run.
pub fn tell(
    p: &[u32],
    processes: &[Record],
    count: usize,
    total: usize,
    left: &mut [Left],
) -> Explored
    requires code { count < 2 ^ 32 }
    requires records { count ≤ length processes.now }
    ensures { Tells p.now processes.now count total left.old left.new result }
{
    if some_at(processes, count, Standing::Spent) {
        return Explored::Spent(total);
    }
    if some_at(processes, count, Standing::Running) {
        return Explored::Jammed {
            shown: total,
            left: fill(p, processes, count as u32, left),
        };
    }
    Explored::Stopped(total)
}

// Runs to the end from where the run stands, looking for each step.
pub fn look_to_end(
    rows: &Rows<'_>,
    processes: &mut [Record],
    shown: &mut [u32],
    from: Look,
    left: &mut [Left],
) -> Explored
    requires some { 0 < from.count }
    requires fits { from.count ≤ length processes.old }
    requires code { length processes.old < 2 ^ 32 }
    requires going { Going rows.now.words.now rows.now.map.now processes.old shown.old from }
    ensures { LooksOut rows.now.words.now rows.now.map.now processes.old shown.old shown.new left.old left.new from result }
{
    match look_on(rows, processes, shown, from) {
        Ok(end) => tell(rows.words, processes, end.count, end.total, left),
        Err(Trouble::Crowded) => Explored::Crowded,
        Err(Trouble::Odd) => Explored::Wide,
    }
}

// Runs the program that the rows are. The engine goes first; where two processes wait at one end, or somebody would have
// too much, the run goes on from there by looking for each step, in the same order from its beginning.
pub fn run_out(
    rows: &Rows<'_>,
    most: u32,
    turns: u32,
    order: Order,
    shown: &mut [u32],
    work: &mut [u32],
    left: &mut [Left],
) -> Explored
    requires lent { 67 * most ≤ length work.old }
    requires readable { Readable rows.now.words.now rows.now.map.now }
    ensures { RunsOut rows.now.words.now rows.now.map.now most turns shown.old shown.new left.old left.new result }
{
    let mut run = match set_up_lent(rows, work, most, turns, order) {
        Ok(run) => run,
        Err(Unready::Crowded) => return Explored::Crowded,
        Err(Unready::Empty) => return Explored::Stopped(0),
    };
    let ended = run.run_on(rows, shown);
    let Run {
        processes,
        count,
        total,
        ..
    } = run;
    match ended {
        Ok(()) => tell(rows.words, processes, count, total, left),
        Err(Trouble::Crowded) => Explored::Crowded,
        Err(Trouble::Odd) => {
            let from = Look {
                count,
                total,
                order,
            };
            look_to_end(rows, processes, shown, from, left)
        }
    }
}
