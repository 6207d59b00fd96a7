// A tree written as rows. Each function appends to `out` what the rows of its part are.
ghost use Rattle.std.specs.Prelude.{[], ◌∷◌, ◌++◌, map, length, OnOk};
ghost use Rattle.model.specs.Rows.{row_e, row_es, row_g, row_p, row_ps};
ghost use Rattle.syntax.specs.Added.{Added};
ghost use Rattle.syntax.specs.Marks.{Wrote, WroteProcess, WroteProcesses, WroteProgram, words_of};
ghost use Rattle.syntax.specs.Meaning.{action_of, expression_of, expressions_of, point_of, points_of, process_of, processes_of, program_of};

use crate::tree::{Action, Expression, Mark, Point, Process};
use std::alloc::AllocError;

// One word more.
fn put(word: u32, out: &mut Vec<u32>) -> Result<(), AllocError>
    ensures { Added result out.old.items out.new.items (word ∷ []) }
{
    out.push(word)?;
    Ok(())
}

fn put_two(first: u32, second: u32, out: &mut Vec<u32>) -> Result<(), AllocError>
    ensures { Added result out.old.items out.new.items (first ∷ second ∷ []) }
{
    put(first, out)?;
    put(second, out)?;
    Ok(())
}

fn put_three(first: u32, second: u32, third: u32, out: &mut Vec<u32>) -> Result<(), AllocError>
    ensures { Added result out.old.items out.new.items (first ∷ second ∷ third ∷ []) }
{
    put(first, out)?;
    put_two(second, third, out)?;
    Ok(())
}

fn write_point(p: Point, out: &mut Vec<u32>) -> Result<(), AllocError>
    ensures { Added result out.old.items out.new.items (row_p (point_of p)) }
{
    match p {
        Point::Over => put(0, out),
        Point::Gives(n) => put_two(1, n, out),
        Point::Takes(n) => put_two(2, n, out),
        Point::Chooses(n, m) => put_three(3, n, m, out),
        Point::Offers(n, m) => put_three(4, n, m, out),
    }
}

// An operator and its two operands.
#[cycle(write_binary_write_expression)]
fn write_binary(
    tag: u32,
    a: &Expression,
    b: &Expression,
    out: &mut Vec<u32>,
) -> Result<(), AllocError>
    ensures { Added result out.old.items out.new.items (tag ∷ (row_e (expression_of a.now) ++ row_e (expression_of b.now))) }
{
    put(tag, out)?;
    write_expression(a, out)?;
    write_expression(b, out)?;
    Ok(())
}

#[cycle(write_binary_write_expression)]
fn write_expression(e: &Expression, out: &mut Vec<u32>) -> Result<(), AllocError>
    ensures { Added result out.old.items out.new.items (row_e (expression_of e.now)) }
{
    match e {
        Expression::Num(n) => put_two(0, *n, out),
        Expression::Var(x) => put_two(1, *x, out),
        Expression::Add(a, b) => write_binary(2, a, b, out),
        Expression::Sub(a, b) => write_binary(3, a, b, out),
        Expression::Mul(a, b) => write_binary(4, a, b, out),
        Expression::Less(a, b) => write_binary(5, a, b, out),
    }
}

fn write_expressions(es: &[Expression], out: &mut Vec<u32>) -> Result<(), AllocError>
    ensures { Added result out.old.items out.new.items (row_es (expressions_of es.now)) }
{
    for e in es {
        write_expression(e, out)?;
    }
    Ok(())
}

// A length as a word.
fn put_count(n: usize, out: &mut Vec<u32>) -> Result<(), AllocError>
    ensures { Added result out.old.items out.new.items (n ∷ []) }
{
    match u32::try_from(n) {
        Ok(word) => put(word, out),
        Err(_) => Err(AllocError),
    }
}

// Numbers, with how many there are in front of them.
fn put_counted(ns: &[u32], out: &mut Vec<u32>) -> Result<(), AllocError>
    ensures { Added result out.old.items out.new.items (length ns.now ∷ ns.now) }
{
    put_count(ns.len(), out)?;
    out.extend_from_slice(ns)?;
    Ok(())
}

// The process, the conversations and the numbers of `start` and `become`.
fn write_handed(
    tag: u32,
    process: u32,
    talks: &[u32],
    values: &[Expression],
    out: &mut Vec<u32>,
) -> Result<(), AllocError>
    ensures { Added result out.old.items out.new.items (tag ∷ process ∷ length talks.now ∷ (talks.now ++ (length values.now ∷ row_es (expressions_of values.now)))) }
{
    put_two(tag, process, out)?;
    put_counted(talks, out)?;
    put_count(values.len(), out)?;
    write_expressions(values, out)?;
    Ok(())
}

// Where an action begins in the text.
fn place_of(a: &Action) -> usize {
    match a {
        Action::Stop(at) => *at,
        Action::Give(at, _, _, _) => *at,
        Action::Take(at, _, _, _) => *at,
        Action::Choose(at, _, _, _) => *at,
        Action::Offer(at, _, _, _) => *at,
        Action::Set(at, _, _, _) => *at,
        Action::If(at, _, _, _) => *at,
        Action::Show(at, _, _) => *at,
        Action::Start(at, _, _, _, _) => *at,
        Action::Become(at, _, _, _) => *at,
    }
}

// Marks the next word as one at which an action begins.
fn note(at: usize, out: &Vec<u32>, marks: &mut Vec<Mark>) -> Result<(), AllocError>
    ensures { Added result (words_of marks.old.items) (words_of marks.new.items) (length out.now.items ∷ []) }
{
    let words = out.as_slice();
    marks.push(Mark {
        word: words.len(),
        at,
    })?;
    Ok(())
}

fn write_action(a: &Action, out: &mut Vec<u32>, marks: &mut Vec<Mark>) -> Result<(), AllocError>
    ensures { OnOk result (Wrote out.old.items out.new.items (words_of marks.old.items) (words_of marks.new.items) (action_of a.now)) }
{
    note(place_of(a), out, marks)?;
    match a {
        Action::Stop(_) => {
            put(0, out)?;
            Ok(())
        }
        Action::Give(_, c, e, s) => {
            put_two(1, *c, out)?;
            write_expression(e, out)?;
            write_action(s, out, marks)?;
            Ok(())
        }
        Action::Take(_, c, x, s) => {
            put_three(2, *c, *x, out)?;
            write_action(s, out, marks)?;
            Ok(())
        }
        Action::Choose(_, c, k, s) => {
            put_three(3, *c, *k, out)?;
            write_action(s, out, marks)?;
            Ok(())
        }
        Action::Offer(_, c, s, t) => {
            put_two(4, *c, out)?;
            write_action(s, out, marks)?;
            write_action(t, out, marks)?;
            Ok(())
        }
        Action::Set(_, x, e, s) => {
            put_two(5, *x, out)?;
            write_expression(e, out)?;
            write_action(s, out, marks)?;
            Ok(())
        }
        Action::If(_, e, s, t) => {
            put(6, out)?;
            write_expression(e, out)?;
            write_action(s, out, marks)?;
            write_action(t, out, marks)?;
            Ok(())
        }
        Action::Show(_, e, s) => {
            put(7, out)?;
            write_expression(e, out)?;
            write_action(s, out, marks)?;
            Ok(())
        }
        Action::Start(_, f, cs, es, s) => {
            write_handed(8, *f, cs.as_slice(), es.as_slice(), out)?;
            write_action(s, out, marks)?;
            Ok(())
        }
        Action::Become(_, f, cs, es) => {
            write_handed(9, *f, cs.as_slice(), es.as_slice(), out)?;
            Ok(())
        }
    }
}

fn write_process(p: &Process, out: &mut Vec<u32>, marks: &mut Vec<Mark>) -> Result<(), AllocError>
    ensures { OnOk result (WroteProcess out.old.items out.new.items (words_of marks.old.items) (words_of marks.new.items) (process_of p.now)) }
{
    put_counted(p.talks.as_slice(), out)?;
    put_two(p.nums, p.vars, out)?;
    write_action(&p.body, out, marks)?;
    Ok(())
}

fn write_points(points: &[Point], out: &mut Vec<u32>) -> Result<(), AllocError>
    ensures { Added result out.old.items out.new.items (row_ps (points_of points.now)) }
{
    for p in points {
        write_point(*p, out)?;
    }
    Ok(())
}

fn write_processes(
    procs: &[Process],
    out: &mut Vec<u32>,
    marks: &mut Vec<Mark>,
) -> Result<(), AllocError>
    ensures { OnOk result (WroteProcesses out.old.items out.new.items (words_of marks.old.items) (words_of marks.new.items) (processes_of procs.now)) }
{
    for p in procs {
        write_process(p, out, marks)?;
    }
    Ok(())
}

// The rows of a program: its points, the other side's of each, and its processes. Where each action begins is
// marked, in the order of the rows.
pub fn write_marked(
    points: &[Point],
    other: &[u32],
    procs: &[Process],
    out: &mut Vec<u32>,
    marks: &mut Vec<Mark>,
) -> Result<(), AllocError>
    ensures { OnOk result (WroteProgram out.old.items out.new.items (words_of marks.old.items) (words_of marks.new.items) (program_of points.now other.now procs.now)) }
{
    put_count(points.len(), out)?;
    write_points(points, out)?;
    out.extend_from_slice(other)?;
    write_processes(procs, out, marks)?;
    Ok(())
}

// The rows of a program: its points, the other side's of each, and its processes.
pub fn write_program(
    points: &[Point],
    other: &[u32],
    procs: &[Process],
    out: &mut Vec<u32>,
) -> Result<(), AllocError>
    ensures { Added result out.old.items out.new.items (row_g (program_of points.now other.now procs.now)) }
{
    let heap = *out.allocator();
    let mut marks = Vec::new(heap);
    write_marked(points, other, procs, out, &mut marks)
}
