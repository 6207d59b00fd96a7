// The calls: judge, and go with a fixed or a drawn order, for rows of words.
#![tactic(auto)]

ghost use Rattle.std.specs.Prelude.{length};
ghost use Rattle.model.specs.Theorems.{OneProgram};
ghost use Rattle.talks.specs.Runs.{GoPost};
ghost use Rattle.talks.specs.Says.{JudgedSays, Only};

use crate::runs::run_lent;
use engine::order::{Order, drawn_order, fixed_order};
use judging::program_keeps;
use rows::map::Map;
use rows::read;

pub mod answers;
mod runs;

pub use crate::answers::{Judged, Ran};

// Whether the words are a program, and whether it keeps to its conversations. Every slice has an answer, and only one:
// no two answers are right for one input.
pub fn judge(program: &[u32]) -> Judged
    ensures says { JudgedSays program.now result }
    ensures one { OneProgram }
    ensures only { Only program.now result }
{
    let mut map = Map::empty();
    match read(&mut map, program) {
        None => Judged::NoProgram,
        Some(rows) => {
            if program_keeps(rows.words, rows.map) {
                Judged::Keeps
            } else {
                Judged::Careless
            }
        }
    }
}

// Runs in an order, if the words are a program that keeps.
fn run_in(
    program: &[u32],
    most: u32,
    turns: u32,
    shown: &mut [u32],
    work: &mut [u32],
    order: Order,
) -> Ran
    ensures { GoPost program.now most turns shown.old shown.new (length work.old) result }
{
    if work.len() < 4096 + 128 * most as usize {
        return Ran::Few;
    }
    let mut map = Map::empty();
    let Some(rows) = read(&mut map, program) else {
        return Ran::Unread;
    };
    if !program_keeps(rows.words, rows.map) {
        return Ran::Unkept;
    }
    run_lent(&rows, most, turns, shown, work, order)
}

// Runs a program that keeps, with at most so many processes and so many turns, in a fixed order. Whatever `work` holds
// before does not matter, and what it holds after is not said.
pub fn go(program: &[u32], most: u32, turns: u32, shown: &mut [u32], work: &mut [u32]) -> Ran
    ensures { GoPost program.now most turns shown.old shown.new (length work.old) result }
{
    run_in(program, most, turns, shown, work, fixed_order())
}

// The same, where each next step is one of a ready process that a small generator draws, from a seed.
pub fn go_seeded(
    program: &[u32],
    most: u32,
    turns: u32,
    seed: u64,
    shown: &mut [u32],
    work: &mut [u32],
) -> Ran
    ensures { GoPost program.now most turns shown.old shown.new (length work.old) result }
{
    run_in(program, most, turns, shown, work, drawn_order(seed))
}
