// Looks at what a start or become hands on.
ghost use Rattle.std.specs.Prelude.{◌≡◌, ◌+◌, ◌<◌, ◌≤◌, length};
ghost use Rattle.judging.specs.Following.{CourseFrom, listed, StartSays, becomes_well, StartLooks, BecomeLooks};
ghost use Rattle.judging.specs.Standing.{stand};
ghost use Rattle.rows.specs.Mapped.{Of};

use crate::beginning::beginning;
use crate::conversations::Conversations;
use crate::course::Course;
use crate::setting::Setting;
use rows::decode::Call;

// The conversations that a call lists.
pub(crate) fn listed<'a>(words: &'a [u32], call: &Call) -> &'a [u32]
    requires { call.now.conversations + call.now.count ≤ length words.now }
    ensures { result.now ≡ listed words.now call.now }
{
    &words[call.conversations..call.conversations + call.count]
}

impl Setting<'_> {
    // The conversations after a start, with the new one last, if those that are listed are what the process begins with.
    fn after_start(
        &self,
        conversations: &Conversations,
        call: &Call,
        listed: &[u32],
    ) -> Option<Conversations>
        ensures { Of self.now.rows (λ g. length (stand conversations.now) < 16 →
            StartSays g (stand conversations.now) call.now.process listed.now call.now.expressions result) }
    {
        let (head, points) = beginning(&self.rows, call.process)?;
        if call.expressions != head.numbers {
            return None;
        }
        let (new, wanted) = points.split_first()?;
        let mut left = conversations.hand_on(listed, wanted)?;
        left.add(self.rows.other(*new)?)?;
        Some(left)
    }

    // Whether becoming a process keeps: it gets what it begins with, what is left is over, and process 0 becomes only itself.
    fn becomes_well(&self, conversations: &Conversations, call: &Call, listed: &[u32]) -> bool
        ensures { Of self.now.rows (λ g.
            result ≡ becomes_well g self.now.root (stand conversations.now) call.now.process listed.now call.now.expressions) }
    {
        let Some((head, points)) = beginning(&self.rows, call.process) else {
            return false;
        };
        let Some(left) = conversations.hand_on(listed, points) else {
            return false;
        };
        call.expressions == head.numbers
            && self.root == (call.process == 0)
            && left.all_over(&self.rows)
    }

    pub(crate) fn start(
        &self,
        conversations: &Conversations,
        call: &Call,
        listed: &[u32],
        depth: u32,
    ) -> Option<Course>
        ensures behind { CourseFrom self.now.rows.words.now call.now.numbers result }
        ensures says { StartLooks self.now call.now listed.now depth (stand conversations.now) result }
    {
        let next = self.all_variables_there(call.numbers, call.expressions, depth)?;
        let left = self.after_start(conversations, call, listed)?;
        Some(Course::On(next, left))
    }

    pub(crate) fn become_another(
        &self,
        conversations: &Conversations,
        call: &Call,
        listed: &[u32],
        depth: u32,
    ) -> Option<Course>
        ensures behind { CourseFrom self.now.rows.words.now call.now.numbers result }
        ensures says { BecomeLooks self.now call.now listed.now depth (stand conversations.now) result }
    {
        let end = self.all_variables_there(call.numbers, call.expressions, depth)?;
        self.becomes_well(conversations, call, listed)
            .then_some(Course::Kept(end))
    }
}
