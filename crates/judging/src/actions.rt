// Looks at one action, with each conversation at its point: what it comes to, if it may keep to the conversations.
ghost use Rattle.judging.specs.Following.{CourseFrom, StopSays, GiveSays, TakeSays, ChooseSays, OfferSays, SetSays, IfSays, ShowSays};
ghost use Rattle.judging.specs.Standing.{stand};

use crate::conversations::Conversations;
use crate::course::Course;
use crate::moves::{chosen, given, offered, taken};
use crate::setting::Setting;

// Each kind of action, by its operands.
impl Setting<'_> {
    pub(crate) fn stop(&self, conversations: &Conversations, end: usize) -> Option<Course>
        ensures behind { CourseFrom self.now.rows.words.now end result }
        ensures says { StopSays self.now end (stand conversations.now) result }
    {
        conversations
            .all_over(&self.rows)
            .then_some(Course::Kept(end))
    }

    pub(crate) fn give(
        &self,
        conversations: &Conversations,
        conversation: u32,
        value: usize,
        depth: u32,
    ) -> Option<Course>
        ensures behind { CourseFrom self.now.rows.words.now value result }
        ensures says { GiveSays self.now conversation value depth (stand conversations.now) result }
    {
        let next = self.variables_there(value, depth)?;
        let point = given(conversations.kind(&self.rows, conversation)?)?;
        Some(Course::On(next, conversations.moved(conversation, point)))
    }

    pub(crate) fn take(
        &self,
        conversations: &Conversations,
        conversation: u32,
        variable: u32,
        next: usize,
    ) -> Option<Course>
        ensures behind { CourseFrom self.now.rows.words.now next result }
        ensures says { TakeSays self.now conversation variable next (stand conversations.now) result }
    {
        if variable >= self.variables {
            return None;
        }
        let point = taken(conversations.kind(&self.rows, conversation)?)?;
        Some(Course::On(next, conversations.moved(conversation, point)))
    }

    pub(crate) fn choose(
        &self,
        conversations: &Conversations,
        conversation: u32,
        way: u32,
        next: usize,
    ) -> Option<Course>
        ensures behind { CourseFrom self.now.rows.words.now next result }
        ensures says { ChooseSays self.now conversation way next (stand conversations.now) result }
    {
        let ways = chosen(conversations.kind(&self.rows, conversation)?)?;
        match way {
            0 => Some(Course::On(next, conversations.moved(conversation, ways.first))),
            1 => Some(Course::On(next, conversations.moved(conversation, ways.second))),
            _ => None,
        }
    }

    pub(crate) fn offer(
        &self,
        conversations: &Conversations,
        conversation: u32,
        first: usize,
    ) -> Option<Course>
        ensures behind { CourseFrom self.now.rows.words.now first result }
        ensures says { OfferSays self.now conversation first (stand conversations.now) result }
    {
        let ways = offered(conversations.kind(&self.rows, conversation)?)?;
        let one = conversations.moved(conversation, ways.first);
        let two = conversations.moved(conversation, ways.second);
        Some(Course::Parted(first, one, two))
    }

    pub(crate) fn set(
        &self,
        conversations: &Conversations,
        variable: u32,
        value: usize,
        depth: u32,
    ) -> Option<Course>
        ensures behind { CourseFrom self.now.rows.words.now value result }
        ensures says { SetSays self.now variable value depth (stand conversations.now) result }
    {
        if variable >= self.variables {
            return None;
        }
        Some(Course::On(self.variables_there(value, depth)?, *conversations))
    }

    pub(crate) fn part(
        &self,
        conversations: &Conversations,
        condition: usize,
        depth: u32,
    ) -> Option<Course>
        ensures behind { CourseFrom self.now.rows.words.now condition result }
        ensures says { IfSays self.now condition depth (stand conversations.now) result }
    {
        let first = self.variables_there(condition, depth)?;
        Some(Course::Parted(first, *conversations, *conversations))
    }

    pub(crate) fn show(
        &self,
        conversations: &Conversations,
        value: usize,
        depth: u32,
    ) -> Option<Course>
        ensures behind { CourseFrom self.now.rows.words.now value result }
        ensures says { ShowSays self.now value depth (stand conversations.now) result }
    {
        if !self.root {
            return None;
        }
        Some(Course::On(self.variables_there(value, depth)?, *conversations))
    }
}
