// What stands at a place of the rows, as types: nothing above this file knows the codes.
//
// A place is an index into the words. An operand that has no fixed length is given by the place where it begins.
ghost use Rattle.std.specs.Prelude.{◌≡◌, IfSome};
ghost use Rattle.rows.specs.Decode.{instruction_at, call_at, term_at, point_at, head_at, Words, CallWords, TermWords, PointWords, HeadWords};

use crate::narrow::{leaf_at, talk_at};

// What a process does.
#[derive(Clone, Copy, PartialEq, Eq, Debug)]
pub enum Instruction {
    Stop,
    Give {
        conversation: u32,
        value: usize,
    },
    Take {
        conversation: u32,
        variable: u32,
        next: usize,
    },
    Choose {
        conversation: u32,
        way: u32,
        next: usize,
    },
    Offer {
        conversation: u32,
        first: usize,
    },
    Set {
        variable: u32,
        value: usize,
    },
    If {
        condition: usize,
    },
    Show {
        value: usize,
    },
    Start {
        call: Call,
    },
    Become {
        call: Call,
    },
}

// A process that is started or become: which one, where the conversations handed to it are listed and how many, and
// where the expressions of its numbers begin and how many.
#[derive(Clone, Copy, PartialEq, Eq, Debug)]
pub struct Call {
    pub process: u32,
    pub conversations: usize,
    pub count: usize,
    pub numbers: usize,
    pub expressions: u32,
}

// An expression: a number, a variable, or an operation on two expressions, the first of which begins at a place.
#[derive(Clone, Copy, PartialEq, Eq, Debug)]
pub enum Term {
    Number(u32),
    Variable(u32),
    Pair { operator: Operator, first: usize },
}

#[derive(Clone, Copy, PartialEq, Eq, Debug)]
pub enum Operator {
    Sum,
    Difference,
    Product,
    Less,
}

// What a point says, with the points at which the conversation goes on.
#[derive(Clone, Copy, PartialEq, Eq, Debug)]
pub enum PointKind {
    Over,
    Gives(u32),
    Takes(u32),
    Chooses(u32, u32),
    Offers(u32, u32),
}

// The beginning of a process: where the points of its conversations are listed and how many, how many numbers are
// handed in, how many variables it has, and where what it does begins.
#[derive(Clone, Copy, PartialEq, Eq, Debug)]
pub struct Head {
    pub talks: usize,
    pub count: usize,
    pub numbers: u32,
    pub variables: u32,
    pub body: usize,
}

// The instruction at a place, if the words that it needs are there.
pub fn instruction_at(p: &[u32], at: usize) -> Option<Instruction>
    ensures is { result ≡ instruction_at p.now at }
    ensures words { IfSome result (λ x. Words p.now at x) }
{
    let code = *p.get(at)?;
    let left = p.len() - at;
    match code {
        0 => Some(Instruction::Stop),
        5 if left > 1 => Some(Instruction::Set {
            variable: p[at + 1],
            value: at + 2,
        }),
        6 => Some(Instruction::If { condition: at + 1 }),
        7 => Some(Instruction::Show { value: at + 1 }),
        8 => Some(Instruction::Start {
            call: call_at(p, at)?,
        }),
        9 => Some(Instruction::Become {
            call: call_at(p, at)?,
        }),
        _ => talk_at(p, at),
    }
}

// The operands of the start or become at a place, if they are there.
fn call_at(p: &[u32], at: usize) -> Option<Call>
    ensures is { result ≡ call_at p.now at }
    ensures words { IfSome result (λ x. CallWords p.now at x) }
{
    let room = p.len().checked_sub(at)?.checked_sub(4)?;
    let count = p[at + 2] as usize;
    if room < count {
        return None;
    }
    Some(Call {
        process: p[at + 1],
        conversations: at + 3,
        count,
        numbers: at + 4 + count,
        expressions: p[at + 3 + count],
    })
}

// The expression at a place, if its first words are there.
pub fn term_at(p: &[u32], at: usize) -> Option<Term>
    ensures is { result ≡ term_at p.now at }
    ensures words { IfSome result (λ x. TermWords p.now at x) }
{
    let operator = match *p.get(at)? {
        2 => Operator::Sum,
        3 => Operator::Difference,
        4 => Operator::Product,
        5 => Operator::Less,
        _ => return leaf_at(p, at),
    };
    Some(Term::Pair {
        operator,
        first: at + 1,
    })
}

// The point at a place, if its words are there.
pub fn point_at(p: &[u32], at: usize) -> Option<PointKind>
    ensures is { result ≡ point_at p.now at }
    ensures words { IfSome result (λ x. PointWords p.now at x) }
{
    let code = *p.get(at)?;
    let left = p.len() - at;
    match code {
        0 => Some(PointKind::Over),
        1 if left > 1 => Some(PointKind::Gives(p[at + 1])),
        2 if left > 1 => Some(PointKind::Takes(p[at + 1])),
        3 if left > 2 => Some(PointKind::Chooses(p[at + 1], p[at + 2])),
        4 if left > 2 => Some(PointKind::Offers(p[at + 1], p[at + 2])),
        _ => None,
    }
}

// The beginning of the process at a place, if its words are there.
pub fn head_at(p: &[u32], at: usize) -> Option<Head>
    ensures is { result ≡ head_at p.now at }
    ensures words { IfSome result (λ x. HeadWords p.now at x) }
{
    let room = p.len().checked_sub(at)?.checked_sub(3)?;
    let count = p[at] as usize;
    if room < count {
        return None;
    }
    Some(Head {
        talks: at + 1,
        count,
        numbers: p[at + 1 + count],
        variables: p[at + 2 + count],
        body: at + 3 + count,
    })
}
