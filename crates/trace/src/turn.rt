// Who takes the next turn of a run, and how it stands before and after it.
ghost use Rattle.std.specs.Prelude.{◌<◌};

use engine::step::Run;
use records::process::{Record, Standing, place, state, turns};

// Who takes the next turn.
pub(crate) fn next_of(run: &Run<'_>) -> u32
    requires { 0 < run.now.ready.count }
{
    let mut order = run.order;
    let place = order.draw_place(run.ready.count);
    run.ready.look(place)
}

// Where a process is, how many turns it has left, and how it stands.
#[derive(Clone, Copy, PartialEq, Eq)]
pub struct Found {
    pub place: usize,
    pub turns: u32,
    pub standing: Standing,
}

// How a process is found.
pub(crate) fn look_at(process: &Record) -> Found {
    Found {
        place: place(process),
        turns: turns(process),
        standing: state(process),
    }
}
