// Running programs that may not keep to their conversations.
#![tactic(auto)]

ghost use Rattle.std.specs.Prelude.{◌≡◌, length};
ghost use Rattle.exploring.specs.Exploring.{ExplorePost};

use crate::runs::run_out;
use engine::order::{Order, drawn_order};
use rows::map::Map;
use rows::read;

pub mod answers;
mod circles;
mod runs;
mod table;

pub use crate::answers::{Explored, Left};
pub use crate::circles::circle;
pub use records::process::End;

// Runs in an order, if the words are a program.
fn explore_in(
    program: &[u32],
    most: u32,
    turns: u32,
    order: Order,
    shown: &mut [u32],
    work: &mut [u32],
    left: &mut [Left],
) -> Explored
    ensures { ExplorePost program.now most turns shown.old shown.new left.old left.new (length work.old) result }
{
    if work.len() < 4096 + 128 * most as usize {
        return Explored::Few;
    }
    let mut map = Map::empty();
    let Some(rows) = read(&mut map, program) else {
        return Explored::Unread;
    };
    run_out(&rows, most, turns, order, shown, work, left)
}

// Runs a program, whether or not it keeps, with at most so many processes and so many turns, in an order that is drawn from
// a seed, one step at a time, until no step is possible. Where it jams, `left` tells who is left, as far as there is room.
// Whatever `work` holds before does not matter, and what it holds after is not said.
pub fn explore(
    program: &[u32],
    most: u32,
    turns: u32,
    seed: u64,
    shown: &mut [u32],
    work: &mut [u32],
    left: &mut [Left],
) -> Explored
    ensures { ExplorePost program.now most turns shown.old shown.new left.old left.new (length work.old) result }
{
    explore_in(program, most, turns, drawn_order(seed), shown, work, left)
}
