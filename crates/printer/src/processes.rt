// Processes, printed from rows action by action.
ghost use Rattle.std.specs.Prelude.{◌+◌, ◌≤◌, length};

use crate::name::Name;
use crate::page::Page;
use crate::points::Layout;
use crate::unprinted::Unprinted;
use rows::decode::{Call, Head, Instruction, Operator, Term, head_at, instruction_at, term_at};
use std::alloc::Global;

// The points at which the conversations of a process begin.
pub fn talks_of(words: &[u32], head: Head) -> &[u32]
    requires { head.talks + head.count ≤ length words.now }
{
    &words[head.talks..head.talks + head.count]
}

// What is open around an action: after the first way of `if` or `offer` comes the second, with the conversations
// that there were before.
#[derive(Clone, Copy)]
enum Open {
    Else(u32),
    SecondWay(u32),
    If,
    Offer,
}

// How an operator is written, and how tightly it binds.
fn sign(operator: Operator) -> (&'static str, u8) {
    match operator {
        Operator::Sum => ("+", 2),
        Operator::Difference => ("-", 2),
        Operator::Product => ("*", 3),
        Operator::Less => ("<", 1),
    }
}

// The processes of a program that are being printed: its rows, what its points are called, how many processes it has,
// and of the one that is printed the variables, the conversations so far, and what is open.
#[derive(Drop)]
pub struct Processes<'a> {
    page: &'a mut Page,
    words: &'a [u32],
    layout: &'a Layout,
    count: u32,
    variables: u32,
    talks: u32,
    open: Vec<Open>,
}

impl<'a> Processes<'a> {
    pub fn new(
        heap: Global,
        page: &'a mut Page,
        words: &'a [u32],
        layout: &'a Layout,
        count: u32,
    ) -> Processes<'a> {
        Processes {
            page,
            words,
            layout,
            count,
            variables: 0,
            talks: 0,
            open: Vec::new(heap),
        }
    }

    // The name of a conversation.
    fn talk(&self, number: u32) -> Name {
        Name::below("c", number, self.talks)
    }

    // The name of a variable.
    fn variable(&self, number: u32) -> Name {
        Name::below("v", number, self.variables)
    }

    // The expression at a place, in parentheses if it binds less tightly than `least`; the place after it.
    fn put_expression(&mut self, at: usize, least: u8, depth: u32) -> Result<usize, Unprinted> {
        if depth == 0 {
            return Err(Unprinted::NoProgram);
        }
        match term_at(self.words, at).ok_or(Unprinted::NoProgram)? {
            Term::Number(n) => {
                write!(self.page, "{n}")?;
                Ok(at + 2)
            }
            Term::Variable(x) => {
                let x = self.variable(x);
                write!(self.page, "{x}")?;
                Ok(at + 2)
            }
            Term::Pair { operator, first } => {
                let (sign, tight) = sign(operator);
                if tight < least {
                    write!(self.page, "(")?;
                }
                let second = self.put_expression(first, tight, depth - 1)?;
                write!(self.page, " {sign} ")?;
                let end = self.put_expression(second, tight.saturating_add(1), depth - 1)?;
                if tight < least {
                    write!(self.page, ")")?;
                }
                Ok(end)
            }
        }
    }

    // An expression that stands alone; the place after it.
    fn put_value(&mut self, at: usize) -> Result<usize, Unprinted> {
        self.put_expression(at, 1, 257)
    }

    // The conversations that are handed on, in parentheses.
    fn put_talks(&mut self, call: Call) -> Result<(), Unprinted> {
        for (i, c) in self
            .words
            .iter()
            .skip(call.conversations)
            .take(call.count)
            .enumerate()
        {
            let before = if i == 0 { "(" } else { ", " };
            let c = self.talk(*c);
            write!(self.page, "{before}{c}")?;
        }
        if call.count > 0 {
            write!(self.page, ")")?;
        }
        Ok(())
    }

    // The numbers that are handed on; the place after them.
    fn put_values(&mut self, call: Call) -> Result<usize, Unprinted> {
        let mut at = call.numbers;
        for i in 0..call.expressions {
            let before = if i == 0 { " with " } else { ", " };
            write!(self.page, "{before}")?;
            at = self.put_value(at)?;
        }
        Ok(at)
    }

    // The process, the conversations and the numbers of `start` and `become`; the place after them.
    fn put_call(&mut self, call: Call) -> Result<usize, Unprinted> {
        let process = Name::below("p", call.process, self.count);
        write!(self.page, "{process}")?;
        self.put_talks(call)?;
        self.put_values(call)
    }

    // `give`, and the place after it.
    fn put_give(&mut self, conversation: u32, value: usize) -> Result<usize, Unprinted> {
        let c = self.talk(conversation);
        write!(self.page, "give ")?;
        let end = self.put_value(value)?;
        write!(self.page, " to {c};")?;
        Ok(end)
    }

    fn put_take(&mut self, conversation: u32, variable: u32) -> Result<(), Unprinted> {
        let c = self.talk(conversation);
        let x = self.variable(variable);
        write!(self.page, "take {x} from {c};")?;
        Ok(())
    }

    fn put_choose(&mut self, conversation: u32, way: u32) -> Result<(), Unprinted> {
        let c = self.talk(conversation);
        match way {
            0 => write!(self.page, "choose first in {c};")?,
            1 => write!(self.page, "choose second in {c};")?,
            _ => write!(self.page, "choose ?{way} in {c};")?,
        }
        Ok(())
    }

    // `set`, and the place after it.
    fn put_set(&mut self, variable: u32, value: usize) -> Result<usize, Unprinted> {
        let x = self.variable(variable);
        write!(self.page, "set {x} = ")?;
        let end = self.put_value(value)?;
        write!(self.page, ";")?;
        Ok(end)
    }

    // `show`, and the place after it.
    fn put_show(&mut self, value: usize) -> Result<usize, Unprinted> {
        write!(self.page, "show ")?;
        let end = self.put_value(value)?;
        write!(self.page, ";")?;
        Ok(end)
    }

    // `start`, after which there is one conversation more, and the place after it.
    fn put_start(&mut self, call: Call) -> Result<usize, Unprinted> {
        write!(self.page, "start ")?;
        let end = self.put_call(call)?;
        let talk = self.talks;
        write!(self.page, " as c{talk};")?;
        self.talks = talk.saturating_add(1);
        Ok(end)
    }

    // `become`, and the place after it.
    fn put_become(&mut self, call: Call) -> Result<usize, Unprinted> {
        write!(self.page, "become ")?;
        let end = self.put_call(call)?;
        write!(self.page, ";")?;
        Ok(end)
    }

    // `if`, and the place where its first way begins.
    fn put_if(&mut self, condition: usize) -> Result<usize, Unprinted> {
        write!(self.page, "if ")?;
        let first = self.put_value(condition)?;
        write!(self.page, " {{")?;
        self.page.enter();
        self.open.push(Open::Else(self.talks))?;
        Ok(first)
    }

    // `offer`, whose first way begins.
    fn put_offer(&mut self, conversation: u32) -> Result<(), Unprinted> {
        let c = self.talk(conversation);
        write!(self.page, "offer in {c} {{")?;
        self.page.enter();
        self.page.line()?;
        write!(self.page, "first:")?;
        self.page.enter();
        self.open.push(Open::SecondWay(self.talks))?;
        Ok(())
    }

    // The action at a place; the place after it, where for `if` and `offer` the first way begins.
    fn put_action(&mut self, action: Instruction, at: usize) -> Result<usize, Unprinted> {
        match action {
            Instruction::Stop => {
                write!(self.page, "stop;")?;
                Ok(at.saturating_add(1))
            }
            Instruction::Give {
                conversation,
                value,
            } => self.put_give(conversation, value),
            Instruction::Take {
                conversation,
                variable,
                next,
            } => {
                self.put_take(conversation, variable)?;
                Ok(next)
            }
            Instruction::Choose {
                conversation,
                way,
                next,
            } => {
                self.put_choose(conversation, way)?;
                Ok(next)
            }
            Instruction::Offer {
                conversation,
                first,
            } => {
                self.put_offer(conversation)?;
                Ok(first)
            }
            Instruction::Set { variable, value } => self.put_set(variable, value),
            Instruction::If { condition } => self.put_if(condition),
            Instruction::Show { value } => self.put_show(value),
            Instruction::Start { call } => self.put_start(call),
            Instruction::Become { call } => self.put_become(call),
        }
    }

    // After a last action: closes what it ends, up to the next way that begins. Answers whether one does; else the
    // process ends.
    fn close(&mut self) -> Result<bool, Unprinted> {
        while let Some(open) = self.open.pop() {
            self.page.leave();
            match open {
                Open::Else(talks) => {
                    self.page.line()?;
                    write!(self.page, "}} else {{")?;
                    self.page.enter();
                    self.open.push(Open::If)?;
                    self.talks = talks;
                    return Ok(true);
                }
                Open::SecondWay(talks) => {
                    self.page.line()?;
                    write!(self.page, "second:")?;
                    self.page.enter();
                    self.open.push(Open::Offer)?;
                    self.talks = talks;
                    return Ok(true);
                }
                Open::If => {}
                Open::Offer => self.page.leave(),
            }
            self.page.line()?;
            write!(self.page, "}}")?;
        }
        Ok(false)
    }

    // What a process does from a place on; the place after it.
    fn put_actions(&mut self, begin: usize) -> Result<usize, Unprinted> {
        let mut at = begin;
        for _ in 0..self.words.len() {
            let action = instruction_at(self.words, at).ok_or(Unprinted::NoProgram)?;
            self.page.line()?;
            at = self.put_action(action, at)?;
            let last = matches!(action, Instruction::Stop | Instruction::Become { .. });
            if last && !self.close()? {
                return Ok(at);
            }
        }
        Err(Unprinted::NoProgram)
    }

    // The conversations of a process, in parentheses, with the points at which they begin.
    fn put_points(&mut self, talks: &[u32]) -> Result<(), Unprinted> {
        for (i, t) in talks.iter().enumerate() {
            let before = if i == 0 { "(" } else { ", " };
            let point = self.layout.name(*t);
            write!(self.page, "{before}c{i}: {point}")?;
        }
        if !talks.is_empty() {
            write!(self.page, ")")?;
        }
        Ok(())
    }

    // The names of variables from one number up to another.
    fn put_variables(&mut self, first: &str, from: u32, to: u32) -> Result<(), Unprinted> {
        for x in from..to {
            let before = if x == from { first } else { ", " };
            write!(self.page, "{before}v{x}")?;
        }
        Ok(())
    }

    // The process at a place, by its number; the place after it.
    pub fn put(&mut self, number: usize, at: usize) -> Result<usize, Unprinted> {
        let words = self.words;
        let head = head_at(words, at).ok_or(Unprinted::NoProgram)?;
        self.variables = head.variables.min(16);
        self.talks = head.count.min(16) as u32;
        self.page.line()?;
        write!(self.page, "process p{number}")?;
        self.put_points(talks_of(words, head))?;
        self.put_variables(" with ", 0, head.numbers.min(self.variables))?;
        write!(self.page, " {{")?;
        self.page.enter();
        if head.numbers < self.variables {
            self.page.line()?;
            self.put_variables("var ", head.numbers, self.variables)?;
            write!(self.page, ";")?;
        }
        let end = self.put_actions(head.body)?;
        self.page.leave();
        self.page.line()?;
        write!(self.page, "}}")?;
        self.page.line()?;
        Ok(end)
    }
}
