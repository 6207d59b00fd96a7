// Whether somebody who is left waits for himself, by way of others.
ghost use Rattle.std.specs.Prelude.{◌≡◌, ℕ, ◌<◌};
ghost use Rattle.queues.specs.Lines.{option};
ghost use Rattle.exploring.specs.Circles.{hop, BackIs, CircleIs};

use crate::answers::Left;

// Who holds the end that process i waits for, by the first row of process i.
pub fn holder_of(left: &[Left], i: u32) -> Option<u32>
    ensures { option result ≡ hop left.now i }
{
    for row in left {
        if row.process == i {
            return row.holder;
        }
    }
    None
}

// Following the holders from process i on comes back to it, in as many hops as there are rows.
pub fn comes_back(left: &[Left], i: u32) -> bool
    ensures { BackIs left.now i result }
{
    let mut at = i;
    for _ in left {
        let Some(j) = holder_of(left, at) else {
            return false;
        };
        if j == i {
            return true;
        }
        at = j;
    }
    false
}

// A process of the table that waits for itself by way of others, if there is one: following the holders from row to row
// comes back to it.
pub fn circle(left: &[Left]) -> Option<u32>
    ensures { CircleIs left.now result }
{
    for row in left {
        if comes_back(left, row.process) {
            return Some(row.process);
        }
    }
    None
}
