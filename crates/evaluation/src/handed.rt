// What a start or become hands on: numbers and conversations, at most sixteen of each.
ghost use Rattle.std.specs.Prelude.{◌≡◌, ◌≤◌, length};
ghost use Rattle.model.specs.Steps.{ends_of};
ghost use Rattle.records.specs.Records.{record_of};
ghost use Rattle.evaluation.specs.Handing.{Numbered, ends_in};

use crate::expressions::evaluate;
use records::process::{End, Record, end_at};

// Numbers handed on, with 0 behind them, and the place behind their expressions.
#[derive(Clone, Copy)]
pub struct Numbers {
    pub values: [u32; 16],
    pub next: usize,
}

// Conversations handed on, as ends of lines, with none behind them.
#[derive(Clone, Copy)]
pub struct Ends {
    pub ends: [Option<End>; 16],
}

// The values of so many expressions that stand one after the other from a place on.
pub fn numbers_at(p: &[u32], at: usize, count: u32, depth: u32, vars: &[u32]) -> Numbers
    requires { count ≤ 16 }
    ensures numbers { Numbered p.now vars.now at depth count result }
    ensures within { at ≤ length p.now → result.next ≤ length p.now }
    ensures wide { length result.values ≡ 16 }
{
    let mut values = [0; 16];
    let mut next = at;
    for value in &mut values[..count as usize] {
        let valued = evaluate(p, next, depth, vars);
        *value = valued.value;
        next = valued.next;
    }
    Numbers { values, next }
}

// The ends that the conversations of a process are which are listed.
pub fn conversations_at(listed: &[u32], process: &Record) -> Ends
    requires { length listed.now ≤ 16 }
    ensures ends { ends_in result (length listed.now) ≡ ends_of (record_of process.now).ends listed.now }
    ensures wide { length result.ends ≡ 16 }
{
    let mut ends = [None; 16];
    for (k, conversation) in listed.iter().enumerate() {
        ends[k] = end_at(process, *conversation);
    }
    Ends { ends }
}
