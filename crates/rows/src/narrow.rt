// What stands at a place of the rows, read only as far as some callers want it.
ghost use Rattle.std.specs.Prelude.{◌≡◌, IfSome};
ghost use Rattle.rows.specs.Decode.{talk_at, conversation_in, leaf_at, Words, TermWords};

use crate::decode::{Instruction, Term};

// The give, take, choose or offer at a place, if one stands there: the instructions at which a process waits. It is what
// `instruction_at` says of them, and small enough to become part of a loop over steps.
pub fn talk_at(p: &[u32], at: usize) -> Option<Instruction>
    ensures is { result ≡ talk_at p.now at }
    ensures words { IfSome result (λ x. Words p.now at x) }
{
    let code = *p.get(at)?;
    let left = p.len() - at;
    match code {
        1 if left > 1 => Some(Instruction::Give {
            conversation: p[at + 1],
            value: at + 2,
        }),
        2 if left > 2 => Some(Instruction::Take {
            conversation: p[at + 1],
            variable: p[at + 2],
            next: at + 3,
        }),
        3 if left > 2 => Some(Instruction::Choose {
            conversation: p[at + 1],
            way: p[at + 2],
            next: at + 3,
        }),
        4 if left > 1 => Some(Instruction::Offer {
            conversation: p[at + 1],
            first: at + 2,
        }),
        _ => None,
    }
}

// The conversation in which a give, take, choose or offer waits.
pub fn conversation_in(what: Instruction) -> u32
    ensures { result ≡ conversation_in what }
{
    match what {
        Instruction::Give { conversation, .. }
        | Instruction::Take { conversation, .. }
        | Instruction::Choose { conversation, .. }
        | Instruction::Offer { conversation, .. } => conversation,
        _ => 0,
    }
}

// The number or variable at a place, if one stands there: what `term_at` says of them, and small enough to become part of
// its callers.
pub fn leaf_at(p: &[u32], at: usize) -> Option<Term>
    ensures is { result ≡ leaf_at p.now at }
    ensures words { IfSome result (λ x. TermWords p.now at x) }
{
    let code = *p.get(at)?;
    let left = p.len() - at;
    match code {
        0 if left > 1 => Some(Term::Number(p[at + 1])),
        1 if left > 1 => Some(Term::Variable(p[at + 1])),
        _ => None,
    }
}
