// The value of the expression that stands at a place of the rows.
ghost use Rattle.std.specs.Prelude.{◌≡◌, ◌≤◌, length, None};
ghost use Rattle.rows.specs.Decode.{leaf_at};
ghost use Rattle.evaluation.specs.Values.{applied, Evaluates};

use rows::decode::{Operator, Term, term_at};
use rows::lookup::word;
use rows::narrow::leaf_at;

// A value, and the place behind its expression.
#[derive(Clone, Copy)]
pub struct Valued {
    pub value: u32,
    pub next: usize,
}

// What an operator makes of two numbers; arithmetic wraps.
fn apply(operator: Operator, a: u32, b: u32) -> u32
    ensures { result ≡ applied operator a b }
{
    match operator {
        Operator::Sum => a.wrapping_add(b),
        Operator::Difference => a.wrapping_sub(b),
        Operator::Product => a.wrapping_mul(b),
        Operator::Less => (a < b) as u32,
    }
}

// The value of the expression at a place, nested at most so deep, over these variables; one that is not there holds 0.
// A number or variable is looked up here, and an operation is left to `operate`.
#[cycle(evaluate_operate)]
pub fn evaluate(p: &[u32], at: usize, depth: u32, vars: &[u32]) -> Valued
    ensures value { Evaluates p.now vars.now at depth result }
    ensures within { at ≤ length p.now → result.next ≤ length p.now }
{
    match leaf_at(p, at) {
        Some(Term::Number(n)) => Valued {
            value: n,
            next: at + 2,
        },
        Some(Term::Variable(x)) => Valued {
            value: word(vars, x as usize),
            next: at + 2,
        },
        _ => operate(p, at, depth, vars),
    }
}

// The same, for an operation.
#[cycle(evaluate_operate)]
fn operate(p: &[u32], at: usize, depth: u32, vars: &[u32]) -> Valued
    requires { leaf_at p.now at ≡ None }
    ensures value { Evaluates p.now vars.now at depth result }
    ensures within { at ≤ length p.now → result.next ≤ length p.now }
{
    if depth == 0 {
        return Valued { value: 0, next: at };
    }
    match term_at(p, at) {
        Some(Term::Pair { operator, first }) => {
            let a = evaluate(p, first, depth - 1, vars);
            let b = evaluate(p, a.next, depth - 1, vars);
            Valued {
                value: apply(operator, a.value, b.value),
                next: b.next,
            }
        }
        _ => Valued { value: 0, next: at },
    }
}
