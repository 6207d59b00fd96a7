// The trees of what processes do, from the parts that are read.
#![tactic(auto)]

use actions::{Act, Flat, Fork, Handed, Part, Step};
use std::alloc::{AllocError, Global};
use syntax::{Action, Process};

// The tree of parts, the first of which stands last in the list; `depth` is at least how many there are. Where parts
// are missing it stops, and that does not happen where a text was read without a fault.
fn build(heap: Global, parts: &mut Vec<Part>, depth: usize) -> Result<Action, AllocError> {
    if depth == 0 {
        return Ok(Action::Stop(0));
    }
    let below = depth - 1;
    let Some(part) = parts.pop() else {
        return Ok(Action::Stop(0));
    };
    let Part { at, act } = part;
    match act {
        Act::Stop => Ok(Action::Stop(at)),
        Act::Become(handed) => {
            let Handed {
                process,
                talks,
                values,
            } = handed;
            Ok(Action::Become(at, process, talks, values))
        }
        Act::Step(step) => {
            let rest = Box::new(heap, build(heap, parts, below)?)?;
            Ok(match step {
                Step::Give(t, e) => Action::Give(at, t, e, rest),
                Step::Take(t, x) => Action::Take(at, t, x, rest),
                Step::Choose(t, w) => Action::Choose(at, t, w, rest),
                Step::Set(x, e) => Action::Set(at, x, e, rest),
                Step::Show(e) => Action::Show(at, e, rest),
                Step::Start(handed) => {
                    let Handed {
                        process,
                        talks,
                        values,
                    } = handed;
                    Action::Start(at, process, talks, values, rest)
                }
            })
        }
        Act::Fork(fork) => {
            let first = Box::new(heap, build(heap, parts, below)?)?;
            let second = Box::new(heap, build(heap, parts, below)?)?;
            Ok(match fork {
                Fork::If(e) => Action::If(at, e, first, second),
                Fork::Offer(t, false) => Action::Offer(at, t, first, second),
                Fork::Offer(t, true) => Action::Offer(at, t, second, first),
            })
        }
    }
}

// The trees of processes, in their order.
pub fn trees(heap: Global, flats: Vec<Flat>) -> Result<Vec<Process>, AllocError> {
    let mut flats = flats;
    flats.reverse();
    let mut procs = Vec::new(heap);
    while let Some(flat) = flats.pop() {
        let Flat {
            talks,
            nums,
            vars,
            mut parts,
        } = flat;
        parts.reverse();
        let n = parts.len();
        let body = build(heap, &mut parts, n)?;
        procs.push(Process {
            talks,
            nums,
            vars,
            body,
        })?;
    }
    Ok(procs)
}
