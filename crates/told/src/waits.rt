// What a process that is left waits for.
use exploring::Left;
use rows::decode::{Instruction, instruction_at};
use rows::map::Map;
use sources::{Failed, Named, process_of_place};

// What a process waits to do; a process to start or to become is not there.
#[derive(Clone, Copy)]
pub enum Waits {
    Give,
    Take,
    Choose,
    Offer,
    Start(u32),
    Become(u32),
    Nothing,
}

// What stands at the place of a process that is left.
pub(crate) fn waits_for(rows: &[u32], one: Left) -> Waits {
    match instruction_at(rows, one.place as usize) {
        None => Waits::Nothing,
        Some(what) => match what {
            Instruction::Give {
                conversation: _c,
                value: _v,
            } => Waits::Give,
            Instruction::Take {
                conversation: _c,
                variable: _x,
                next: _n,
            } => Waits::Take,
            Instruction::Choose {
                conversation: _c,
                way: _w,
                next: _n,
            } => Waits::Choose,
            Instruction::Offer {
                conversation: _c,
                first: _f,
            } => Waits::Offer,
            Instruction::Start { call } => Waits::Start(call.process),
            Instruction::Become { call } => Waits::Become(call.process),
            _ => Waits::Nothing,
        },
    }
}

// The word for it.
pub(crate) fn word_of(waits: Waits) -> &'static str {
    match waits {
        Waits::Give => "give",
        Waits::Take => "take",
        Waits::Choose => "choose",
        Waits::Offer => "offer",
        Waits::Start(_f) => "start",
        Waits::Become(_f) => "become",
        Waits::Nothing => "go on",
    }
}

// Who is left, of a program.
#[derive(Clone, Copy)]
pub struct Jam<'a> {
    pub named: &'a Named<'a>,
    pub map: &'a Map,
    pub left: &'a [Left],
    pub seed: u64,
}

impl Jam<'_> {
    // The one of a number, if it is left.
    pub(crate) fn find(&self, process: u32) -> Option<Left> {
        for one in self.left {
            if one.process == process {
                return Some(*one);
            }
        }
        None
    }

    // Writes the number and the name of a process; of one that is not left, that it has stopped.
    pub(crate) fn put_process(&self, process: u32, out: &mut String) -> Result<(), Failed> {
        write!(out, "{process} ")?;
        match self.find(process) {
            Some(one) => self
                .named
                .put_name(process_of_place(self.map, one.place as usize), out),
            None => {
                write!(out, "stopped")?;
                Ok(())
            }
        }
    }
}
