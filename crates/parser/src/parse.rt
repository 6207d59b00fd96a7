// A whole text.
ghost use Rattle.std.specs.Prelude.{IfOk};
ghost use Rattle.syntax.specs.Mirror.{Fitting};

use crate::processes::{read_first, read_process};
use actions::{Flat, Known, Reader, Scope};
use protocols::{Drafts, Survey, look_over, read_protocols, settle};
use std::alloc::{AllocError, Global};
use syntax::{Point, Sides, both_sides};
use tokens::{Cursor, Fault, Span, keep, wrong};

// How many words a program may have.
const MOST_WORDS: u32 = 16384;

// The points of both sides of a text's protocols, its processes, and where the name of each stands.
#[derive(Drop)]
pub struct Parsed {
    pub sides: Sides,
    pub procs: Vec<Flat>,
    pub names: Vec<Span>,
}

// For each process the point of its first conversation.
fn read_firsts(r: &mut Reader, names: &[Span]) {
    for name in names {
        r.c.go_to(name.at);
        let first = read_first(r);
        keep(&mut r.c, &mut r.known.firsts, first);
    }
}

fn read_processes(r: &mut Reader, names: &[Span]) -> Vec<Flat> {
    let mut procs = Vec::new(r.c.heap);
    for name in names {
        r.c.go_to(name.at);
        let process = read_process(r);
        keep(&mut r.c, &mut procs, process);
    }
    procs
}

// The points of both sides of the protocols, which the machine makes from the one side that is written.
fn make_sides(heap: Global, drafts: &Drafts) -> Result<Sides, Fault>
    ensures { IfOk result (λ s. Fitting s) }
{
    let mut near = Vec::new(heap);
    settle(drafts, &mut near)?;
    match both_sides(heap, near.as_slice())? {
        Some(sides) => Ok(sides),
        None => Err(wrong(heap, 0, "the protocols have too many steps")),
    }
}

// What the processes may use.
fn make_known(
    heap: Global,
    survey: Survey,
    drafts: Drafts,
    points: &[Point],
) -> Result<Known, AllocError> {
    let Survey {
        protocols,
        processes,
    } = survey;
    let Drafts {
        points: _,
        ways,
        starts,
    } = drafts;
    let points = points.to_vec(heap)?;
    Ok(Known {
        protocols,
        starts,
        points,
        ways,
        processes,
        firsts: Vec::new(heap),
    })
}

// The processes of a text, whose names are these.
fn read_rest(c: Cursor, known: Known, names: &[Span]) -> Result<Vec<Flat>, Fault> {
    let scope = Scope {
        talks: Vec::new(c.heap),
        vars: Vec::new(c.heap),
        left: MOST_WORDS,
    };
    let mut r = Reader { c, known, scope };
    read_firsts(&mut r, names);
    let procs = read_processes(&mut r, names);
    r.c.faultless()?;
    Ok(procs)
}

// What a text says, or what is wrong with it. The points of what is read fit.
pub fn parse_text(heap: Global, text: &str) -> Result<Parsed, Fault>
    ensures { IfOk result (λ p. Fitting p.sides) }
{
    let mut c = Cursor::new(heap, text);
    let survey = look_over(&mut c);
    let drafts = read_protocols(&mut c, survey.protocols.as_slice());
    c.faultless()?;
    let sides = make_sides(heap, &drafts)?;
    let known = make_known(heap, survey, drafts, sides.points.as_slice())?;
    let names = known.processes.as_slice().to_vec(heap)?;
    let procs = read_rest(c, known, names.as_slice())?;
    Ok(Parsed {
        sides,
        procs,
        names,
    })
}
