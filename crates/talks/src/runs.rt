// Running a program that keeps, in lent words.
ghost use Rattle.std.specs.Prelude.{◌≡◌, ◌+◌, ◌*◌, ◌≤◌, length, take, drop, if◌then◌else◌};
ghost use Rattle.talks.specs.Once.{Kept, OnceSays};
ghost use Rattle.talks.specs.Runs.{GoSays, Comes};

use crate::answers::Ran;
use engine::order::Order;
use engine::whole::{Rest, run_whole};
use rows::lookup::Rows;
use turns::turn::Trouble;

// One run from the beginning, in an order; or there are too many processes.
pub(crate) fn run_once(
    rows: &Rows<'_>,
    most: u32,
    turns: u32,
    shown: &mut [u32],
    work: &mut [u32],
    order: Order,
) -> Option<Rest>
    requires kept { Kept rows.now.words.now rows.now.map.now }
    requires room { 67 * most ≤ length work.old }
    ensures { OnceSays rows.now.words.now rows.now.map.now most turns shown.old shown.new result }
{
    match run_whole(rows, most, turns, order, shown, work) {
        Ok(rest) => Some(rest),
        Err(Trouble::Crowded) => None,
        Err(Trouble::Odd) => unreachable(),
    }
}

// Copies the first so many numbers.
fn copy_first(shown: &mut [u32], from: &[u32], count: usize)
    requires here { count ≤ length shown.old }
    requires there { count ≤ length from.now }
    ensures first { take count shown.new ≡ take count from.now }
    ensures rest { drop count shown.new ≡ drop count shown.old }
{
    shown[..count].copy_from_slice(&from[..count]);
}

// The answer of a run that came to its end.
fn ended(rest: Rest) -> Ran
    ensures { result ≡ (if rest.spent then Ran.Spent rest.total else Ran.Done rest.total) }
{
    if rest.spent {
        return Ran::Spent(rest.total);
    }
    Ran::Done(rest.total)
}

// Runs with the numbers shown kept in the words that the run itself does not need, which tells how many there are and
// whether there are too many processes; only then is `shown` written. Where even those words are too few for the numbers,
// the program is run once more, straight into `shown`.
pub(crate) fn run_lent(
    rows: &Rows<'_>,
    most: u32,
    turns: u32,
    shown: &mut [u32],
    work: &mut [u32],
    order: Order,
) -> Ran
    requires kept { Kept rows.now.words.now rows.now.map.now }
    requires room { 4096 + 128 * most ≤ length work.old }
    ensures says { GoSays rows.now.words.now most turns shown.old shown.new result }
    ensures comes { Comes rows.now.words.now most turns (length shown.old) (length work.old) result }
{
    let (own, spare) = work.split_at_mut(67 * most as usize);
    let Some(rest) = run_once(rows, most, turns, spare, own, order) else {
        return Ran::Crowded;
    };
    if rest.total > shown.len() {
        return Ran::OutFull;
    }
    if rest.total <= spare.len() {
        copy_first(shown, spare, rest.total);
        return ended(rest);
    }
    match run_once(rows, most, turns, shown, own, order) {
        None => unreachable(),
        Some(again) => ended(again),
    }
}
