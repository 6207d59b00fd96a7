// What a process is about to do, in words.
use crate::turn::Found;
use evaluation::expressions::evaluate;
use queues::lines::{Line, facing_end, waiter};
use records::process::{End, Record, end_at, place, variables};
use rows::decode::{Call, Instruction, instruction_at};
use rows::lookup::Rows;
use sources::{Failed, Named, process_of_place};

// A run as it is looked at: the program, its rows, the processes, who waits at the lines, and how many processes there are.
#[derive(Clone, Copy)]
pub struct View<'a> {
    pub named: &'a Named<'a>,
    pub rows: &'a Rows<'a>,
    pub processes: &'a [Record],
    pub lines: &'a [Line],
    pub count: usize,
}

// Who waits at the facing end of a conversation of a process, and the line.
#[derive(Clone, Copy)]
struct Partner {
    who: u32,
    line: u32,
}

impl View<'_> {
    // The end that a conversation of a process is.
    fn end_of(&self, i: u32, conversation: u32) -> Option<End> {
        end_at(self.processes.get(i as usize)?, conversation)
    }

    // Who waits at the other end of a conversation of a process.
    fn partner(&self, i: u32, conversation: u32) -> Option<Partner> {
        let end = self.end_of(i, conversation)?;
        if end.line as usize >= self.lines.len() {
            return None;
        }
        let who = waiter(self.lines, facing_end(end))?;
        Some(Partner {
            who,
            line: end.line,
        })
    }

    // The value of the expression at a place, for a process.
    fn value(&self, i: u32, at: usize) -> u32 {
        match self.processes.get(i as usize) {
            None => 0,
            Some(process) => evaluate(self.rows.words, at, 256, variables(process)).value,
        }
    }

    // What a process is at.
    fn doing(&self, i: u32) -> Option<Instruction> {
        instruction_at(self.rows.words, place(self.processes.get(i as usize)?))
    }

    // Writes the name and the number of a process.
    fn put_process(&self, i: u32, out: &mut String) -> Result<(), Failed> {
        if let Some(process) = self.processes.get(i as usize) {
            self.named
                .put_name(process_of_place(self.rows.map, place(process)), out)?;
        }
        write!(out, " {i}")?;
        Ok(())
    }

    // A process that is about to give, if somebody waits for it.
    fn put_give(
        &self,
        i: u32,
        conversation: u32,
        at: usize,
        out: &mut String,
    ) -> Result<(), Failed> {
        if let Some(partner) = self.partner(i, conversation) {
            let value = self.value(i, at);
            self.put_process(i, out)?;
            write!(out, " gives {value} to ")?;
            return self.put_at(partner, out);
        }
        Ok(())
    }

    // Somebody at a line.
    fn put_at(&self, partner: Partner, out: &mut String) -> Result<(), Failed> {
        self.put_process(partner.who, out)?;
        let line = partner.line;
        write!(out, " at line {line}")?;
        Ok(())
    }

    // A process that is about to take, if somebody gives.
    fn put_take(&self, i: u32, conversation: u32, out: &mut String) -> Result<(), Failed> {
        if let Some(partner) = self.partner(i, conversation) {
            if let Some(Instruction::Give { value, .. }) = self.doing(partner.who) {
                let value = self.value(partner.who, value);
                self.put_process(i, out)?;
                write!(out, " takes {value} from ")?;
                return self.put_at(partner, out);
            }
        }
        Ok(())
    }

    // A process that is about to choose, if somebody lets it.
    fn put_choose(
        &self,
        i: u32,
        conversation: u32,
        way: u32,
        out: &mut String,
    ) -> Result<(), Failed> {
        if let Some(partner) = self.partner(i, conversation) {
            self.put_process(i, out)?;
            write!(out, " chooses way {way} of ")?;
            return self.put_at(partner, out);
        }
        Ok(())
    }

    // A process that is about to let somebody choose, if somebody does.
    fn put_offer(&self, i: u32, conversation: u32, out: &mut String) -> Result<(), Failed> {
        if let Some(partner) = self.partner(i, conversation) {
            if let Some(Instruction::Choose { way, .. }) = self.doing(partner.who) {
                self.put_process(i, out)?;
                write!(out, " goes way {way}, chosen by ")?;
                return self.put_at(partner, out);
            }
        }
        Ok(())
    }

    // A process that is about to start another, or is out of turns.
    fn put_start(&self, i: u32, left: u32, call: Call, out: &mut String) -> Result<(), Failed> {
        self.put_process(i, out)?;
        if left == 0 {
            out.push_str(" is out of turns")?;
            return Ok(());
        }
        let number = self.count;
        let line = number.saturating_sub(1);
        out.push_str(" starts ")?;
        self.named.put_name(call.process, out)?;
        write!(out, " as process {number}, line {line}")?;
        Ok(())
    }

    // A process that is about to become another, or is out of turns.
    fn put_become(&self, i: u32, left: u32, call: Call, out: &mut String) -> Result<(), Failed> {
        self.put_process(i, out)?;
        if left == 0 {
            out.push_str(" is out of turns")?;
            return Ok(());
        }
        out.push_str(" becomes ")?;
        self.named.put_name(call.process, out)?;
        Ok(())
    }

    // A process that is about to put a number into a variable.
    fn put_set(&self, i: u32, variable: u32, at: usize, out: &mut String) -> Result<(), Failed> {
        let value = self.value(i, at);
        self.put_process(i, out)?;
        write!(out, " sets variable {variable} to {value}")?;
        Ok(())
    }

    // A process that is about to go one of two ways.
    fn put_fork(&self, i: u32, at: usize, out: &mut String) -> Result<(), Failed> {
        let way = if self.value(i, at) == 0 {
            "second"
        } else {
            "first"
        };
        self.put_process(i, out)?;
        write!(out, " goes the {way} way")?;
        Ok(())
    }

    // A process that is about to show a number; only the first one's is seen.
    fn put_show(&self, i: u32, at: usize, out: &mut String) -> Result<(), Failed> {
        let value = self.value(i, at);
        self.put_process(i, out)?;
        write!(out, " shows {value}")?;
        if i != 0 {
            out.push_str(" to nobody")?;
        }
        Ok(())
    }

    fn put_stop(&self, i: u32, out: &mut String) -> Result<(), Failed> {
        self.put_process(i, out)?;
        out.push_str(" stops")?;
        Ok(())
    }

    // What a process that is found so is about to do; nothing where it would only begin to wait.
    pub(crate) fn put_step(&self, i: u32, found: Found, out: &mut String) -> Result<(), Failed> {
        let Some(what) = instruction_at(self.rows.words, found.place) else {
            return Ok(());
        };
        match what {
            Instruction::Stop => self.put_stop(i, out),
            Instruction::Give {
                conversation,
                value,
            } => self.put_give(i, conversation, value, out),
            Instruction::Take { conversation, .. } => self.put_take(i, conversation, out),
            Instruction::Choose {
                conversation,
                way,
                ..
            } => self.put_choose(i, conversation, way, out),
            Instruction::Offer { conversation, .. } => self.put_offer(i, conversation, out),
            Instruction::Set { variable, value } => self.put_set(i, variable, value, out),
            Instruction::If { condition } => self.put_fork(i, condition, out),
            Instruction::Show { value } => self.put_show(i, value, out),
            Instruction::Start { call } => self.put_start(i, found.turns, call, out),
            Instruction::Become { call } => self.put_become(i, found.turns, call, out),
        }
    }
}
