// Where an expression ends.
ghost use Rattle.rows.specs.Reading.{ExpressionEnd, ExpressionsEnd};

use crate::decode::{Term, term_at};

// The place behind the expression that stands at a place, if one does that is nested at most so deep.
pub(crate) fn expression_end(p: &[u32], at: usize, depth: u32) -> Option<usize>
    ensures { ExpressionEnd p.now at depth result }
{
    if depth == 0 {
        return None;
    }
    match term_at(p, at)? {
        Term::Number(_) | Term::Variable(_) => Some(at + 2),
        Term::Pair { first, .. } => {
            let second = expression_end(p, first, depth - 1)?;
            expression_end(p, second, depth - 1)
        }
    }
}

// The place behind so many expressions that stand one after the other from a place on, if they do.
pub(crate) fn expressions_end(p: &[u32], at: usize, count: u32, depth: u32) -> Option<usize>
    ensures { ExpressionsEnd p.now at depth count result }
{
    let mut here = at;
    for _ in 0..count {
        here = expression_end(p, here, depth)?;
    }
    Some(here)
}
