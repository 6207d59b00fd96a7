// The steps of a run, printed as they are taken.
use crate::said::View;
use crate::turn::{Found, look_at, next_of};
use engine::order::{Order, drawn_order, fixed_order};
use engine::set_up::set_up_lent;
use engine::step::Run;
use queues::lines::Line;
use records::process::Record;
use rows::lookup::Rows;
use rows::map::Map;
use rows::read;
use sources::{Failed, Named, print_full};
use turns::turn::Trouble;

// Where the engine that is proved for programs that keep gives up on one that does not.
const ODD: &str =
    "no further step is traced: two wait at one end of a line, or somebody would have too much\n";

// How many processes there may be, how many turns there are, and the seed of the order, which is fixed without one.
#[derive(Clone, Copy)]
pub struct Wanted {
    pub most: u32,
    pub turns: u32,
    pub seed: Option<u64>,
}

// The order that is drawn from a seed, or the fixed one.
fn order_of(seed: Option<u64>) -> Order {
    match seed {
        None => fixed_order(),
        Some(seed) => drawn_order(seed),
    }
}

// Says what a process that is found so is about to do.
fn say<'x>(
    named: &'x Named<'x>,
    rows: &'x Rows<'x>,
    processes: &'x [Record],
    lines: &'x [Line],
    count: usize,
    who: u32,
    before: Found,
    said: &mut String,
) -> Result<(), Failed> {
    let view = View {
        named,
        rows,
        processes,
        lines,
        count,
    };
    view.put_step(who, before, said)
}

// One turn; says the step, if one is taken. False where nobody can go on.
fn said_turn(
    named: &Named<'_>,
    rows: &Rows<'_>,
    run: &mut Run<'_>,
    said: &mut String,
) -> Result<Result<bool, Trouble>, Failed> {
    said.clear();
    if run.ready.count == 0 {
        return Ok(Ok(false));
    }
    let who = next_of(run);
    let Some(process) = run.processes.get(who as usize) else {
        return Ok(Ok(false));
    };
    let before = look_at(process);
    say(
        &*named,
        &*rows,
        run.processes,
        run.lines,
        run.count,
        who,
        before,
        said,
    )?;
    if let Err(trouble) = run.step(rows, &mut []) {
        return Ok(Err(trouble));
    }
    if let Some(process) = run.processes.get(who as usize) {
        if look_at(process) == before {
            said.clear();
        }
    }
    Ok(Ok(true))
}

// All turns of a run.
fn said_turns(
    rt: &HostRuntime,
    named: &Named<'_>,
    rows: &Rows<'_>,
    run: &mut Run<'_>,
    out: &mut String,
) -> Result<(), Failed> {
    let mut said = String::new(rt.alloc());
    let mut steps = 0u64;
    for _ in 0..u64::MAX {
        match said_turn(named, rows, run, &mut said)? {
            Ok(true) => {}
            Ok(false) | Err(Trouble::Crowded) => break,
            Err(Trouble::Odd) => {
                out.push_str(ODD)?;
                break;
            }
        }
        if !said.is_empty() {
            write!(out, "{steps}: {said}\n")?;
            steps = steps.saturating_add(1);
            print_full(rt, out)?;
        }
    }
    Ok(())
}

// Says each step of a run of a program, behind what is yet to be printed; nothing where there are no steps.
pub fn trace_run(
    rt: &HostRuntime,
    named: &Named<'_>,
    wanted: Wanted,
    work: &mut [u32],
    out: &mut String,
) -> Result<(), Failed> {
    let mut map = Map::empty();
    let Some(rows) = read(&mut map, named.rows) else {
        return Ok(());
    };
    if work.len() < 67 * wanted.most as usize {
        return Ok(());
    }
    match set_up_lent(
        &rows,
        work,
        wanted.most,
        wanted.turns,
        order_of(wanted.seed),
    ) {
        Ok(mut run) => said_turns(rt, named, &rows, &mut run, out),
        Err(_) => Ok(()),
    }
}
