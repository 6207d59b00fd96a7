// Handing on conversations, and letting go of those that are left.
ghost use Rattle.std.specs.Prelude.{◌≡◌};
ghost use Rattle.judging.specs.Judging.{HandsSay, over_one};
ghost use Rattle.judging.specs.Standing.{held, stand};
ghost use Rattle.model.specs.Keeps.{all_over};
ghost use Rattle.rows.specs.Mapped.{Of};

use crate::conversations::Conversations;
use rows::decode::PointKind;
use rows::lookup::Rows;

// Whether one conversation is over, or handed on.
fn is_over(rows: &Rows<'_>, at: Option<u32>) -> bool
    ensures { Of rows.now (λ g. result ≡ over_one g (held at)) }
{
    match at {
        Some(point) => rows.point(point) == Some(PointKind::Over),
        None => true,
    }
}

impl Conversations {
    // The conversations that are left when those that are listed are handed on: as many as there are wanted points, each
    // at its point, and each once.
    pub(crate) fn hand_on(&self, listed: &[u32], wanted: &[u32]) -> Option<Conversations>
        ensures { HandsSay (stand self.now) listed.now wanted.now result }
    {
        if listed.len() != wanted.len() {
            return None;
        }
        let mut left = *self;
        for (conversation, point) in listed.iter().zip(wanted) {
            if left.point(*conversation)? != *point {
                return None;
            }
            left.move_to(*conversation, None);
        }
        Some(left)
    }

    // Whether every conversation is over or handed on.
    pub(crate) fn all_over(&self, rows: &Rows<'_>) -> bool
        ensures { Of rows.now (λ g. result ≡ all_over g (stand self.now)) }
    {
        self.points[..self.count]
            .iter()
            .all(|at| is_over(rows, *at))
    }
}
