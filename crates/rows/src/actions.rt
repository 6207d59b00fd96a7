// Where what a process does ends. What comes one after the other is a loop; the first of two ways is a recursion,
// and the second goes on in the loop.
ghost use Rattle.rows.specs.Reading.{Passed, ActionEnd, SameBelow};

use crate::decode::{Instruction, instruction_at};
use crate::expressions::{expression_end, expressions_end};
use crate::unread::Unread;

// What an instruction leads to: the action ends at a place; it goes on at a place, with so much room for conversations
// left; or two ways part, the first of which begins at a place.
#[derive(Clone, Copy, PartialEq, Eq, Debug)]
pub enum Pass {
    End(usize),
    On(usize, u32),
    Fork(usize),
}

// Passes the instruction at a place; none where no action that keeps the limits stands. Nesting and conversations that
// are got by starting others are limited.
fn advance(p: &[u32], at: usize, depth: u32, room: u32) -> Option<Pass>
    ensures { Passed p.now at depth room result }
{
    match instruction_at(p, at)? {
        Instruction::Stop => Some(Pass::End(at + 1)),
        Instruction::Give { value, .. }
        | Instruction::Set { value, .. }
        | Instruction::Show { value } => Some(Pass::On(expression_end(p, value, depth)?, room)),
        Instruction::Take { next, .. } => Some(Pass::On(next, room)),
        Instruction::Choose { next, .. } => Some(Pass::On(next, room)),
        Instruction::Offer { first, .. } => Some(Pass::Fork(first)),
        Instruction::If { condition } => Some(Pass::Fork(expression_end(p, condition, depth)?)),
        Instruction::Start { call } => {
            let left = room.checked_sub(1)?;
            let next = expressions_end(p, call.numbers, call.expressions, depth)?;
            Some(Pass::On(next, left))
        }
        Instruction::Become { call } => {
            let end = expressions_end(p, call.numbers, call.expressions, depth)?;
            Some(Pass::End(end))
        }
    }
}

impl Unread<'_> {
    // The place behind the action that stands at a place, if one does that keeps the limits; the table then has its
    // second ways. What the table has for places before this one stays as it was.
    pub(crate) fn action_end(
        &self,
        at: usize,
        depth: u32,
        room: u32,
        second: &mut [u16; 16384],
    ) -> Option<usize>
        ensures ends { ActionEnd self.now.words.now second.new at depth room result }
        ensures before { SameBelow at second.old second.new }
    {
        let mut here = at;
        let mut deep = depth;
        let mut left = room;
        loop {
            match advance(self.words, here, deep, left)? {
                Pass::End(end) => return Some(end),
                Pass::On(next, rest) => {
                    here = next;
                    left = rest;
                }
                Pass::Fork(first) => {
                    deep = deep.checked_sub(1)?;
                    let next = self.action_end(first, deep, left, second)?;
                    second[here] = next as u16;
                    here = next;
                }
            }
        }
    }
}
