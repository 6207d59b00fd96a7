// Goes through what a process does. What comes one after the other is a loop; the first of two ways is a recursion
// by the nesting that is left, and the second goes on in the loop.
ghost use Rattle.judging.specs.Following.{CourseBehind, FollowSays, WalkSays};
ghost use Rattle.judging.specs.Judging.{Behind};
ghost use Rattle.judging.specs.Standing.{stand};

use crate::calls::listed;
use crate::conversations::Conversations;
use crate::course::Course;
use crate::setting::Setting;
use rows::decode::{Instruction, instruction_at};

impl Setting<'_> {
    // What the action at a place comes to, if it may keep to the conversations.
    fn follow(&self, at: usize, conversations: &Conversations, depth: u32) -> Option<Course>
        ensures behind { CourseBehind self.now.rows.words.now at result }
        ensures says { FollowSays self.now at depth (stand conversations.now) result }
    {
        match instruction_at(self.rows.words, at)? {
            Instruction::Stop => self.stop(conversations, at + 1),
            Instruction::Give {
                conversation,
                value,
            } => self.give(conversations, conversation, value, depth),
            Instruction::Take {
                conversation,
                variable,
                next,
            } => self.take(conversations, conversation, variable, next),
            Instruction::Choose {
                conversation,
                way,
                next,
            } => self.choose(conversations, conversation, way, next),
            Instruction::Offer {
                conversation,
                first,
            } => self.offer(conversations, conversation, first),
            Instruction::Set { variable, value } => self.set(conversations, variable, value, depth),
            Instruction::If { condition } => self.part(conversations, condition, depth),
            Instruction::Show { value } => self.show(conversations, value, depth),
            Instruction::Start { call } => {
                self.start(conversations, &call, listed(self.rows.words, &call), depth)
            }
            Instruction::Become { call } => {
                self.become_another(conversations, &call, listed(self.rows.words, &call), depth)
            }
        }
    }

    // Whether what stands at a place keeps to the conversations; if it does, the place behind it.
    pub(crate) fn keeps_from(
        &self,
        at: usize,
        conversations: Conversations,
        depth: u32,
    ) -> Option<usize>
        ensures behind { Behind self.now.rows.words.now at result }
        ensures says { WalkSays self.now at depth (stand conversations) result }
    {
        let mut here = at;
        let mut current = conversations;
        let mut deep = depth;
        loop {
            match self.follow(here, &current, deep)? {
                Course::Kept(end) => return Some(end),
                Course::On(next, after) => {
                    here = next;
                    current = after;
                }
                Course::Parted(first, one, two) => {
                    deep = deep.checked_sub(1)?;
                    here = self.keeps_from(first, one, deep)?;
                    current = two;
                }
            }
        }
    }
}
