// Where conversations go on, by the points at which they are.
ghost use Rattle.std.specs.Prelude.{◌≡◌};
ghost use Rattle.judging.specs.Judging.{KindSays, ways_of};
ghost use Rattle.judging.specs.Standing.{held, stand};
ghost use Rattle.model.specs.Keeps.{after_give, after_take, after_choose, after_offer};
ghost use Rattle.rows.specs.Decode.{said};
ghost use Rattle.rows.specs.Mapped.{Of};

use crate::conversations::Conversations;
use rows::decode::PointKind;
use rows::lookup::Rows;

// The points at which two ways go on.
#[derive(Clone, Copy, PartialEq, Eq, Debug)]
pub struct Fork {
    pub first: u32,
    pub second: u32,
}

impl Conversations {
    // What the point of a conversation says, if it is at a point that is there.
    pub(crate) fn kind(&self, rows: &Rows<'_>, conversation: u32) -> Option<PointKind>
        ensures { Of rows.now (λ g. KindSays g (stand self.now) conversation result) }
    {
        rows.point(self.point(conversation)?)
    }
}

// Where a point that gives goes on, and likewise for the others; none where the point says something else.
pub(crate) fn given(kind: PointKind) -> Option<u32>
    ensures { held result ≡ after_give (said kind) }
{
    match kind {
        PointKind::Gives(next) => Some(next),
        _ => None,
    }
}

pub(crate) fn taken(kind: PointKind) -> Option<u32>
    ensures { held result ≡ after_take (said kind) }
{
    match kind {
        PointKind::Takes(next) => Some(next),
        _ => None,
    }
}

pub(crate) fn chosen(kind: PointKind) -> Option<Fork>
    ensures { ways_of result ≡ after_choose (said kind) }
{
    match kind {
        PointKind::Chooses(first, second) => Some(Fork { first, second }),
        _ => None,
    }
}

pub(crate) fn offered(kind: PointKind) -> Option<Fork>
    ensures { ways_of result ≡ after_offer (said kind) }
{
    match kind {
        PointKind::Offers(first, second) => Some(Fork { first, second }),
        _ => None,
    }
}
