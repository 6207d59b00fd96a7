// The calls as C functions: a slice passes as a pointer and then a length, an answer as a number.
#![tactic(auto)]

ghost use Rattle.std.specs.Prelude.{◌≡◌, length};
ghost use Rattle.engine.specs.Shown.{overlay};
ghost use Rattle.embedding.specs.Codes.{JudgeCode, ran_of, explored_of};
ghost use Rattle.embedding.specs.Rows.{line_word, side_word, number_word, row_words, rows_words, Laid, ExploredWords};
ghost use Rattle.talks.specs.Runs.{GoPost};

use engine::shown::write_down;
use exploring::{End, Explored, Left, circle, explore};
use talks::{Judged, Ran, go, go_seeded, judge};

// 0: the program keeps to its conversations; 1: it is careless; 2: the words are no program.
#[unsafe(no_mangle)]
pub extern "C" fn talks_judge(program: &[u32]) -> u32
    ensures { JudgeCode program.now result }
{
    match judge(program) {
        Judged::Keeps => 0,
        Judged::Careless => 1,
        Judged::NoProgram => 2,
    }
}

// The number of an answer, and how many numbers were shown: 0 done, 1 spent, 2 crowded, 3 unkept, 4 unread, 5 out full,
// 6 few. Where none are counted the count is 0.
fn coded(ran: Ran) -> (u32, usize)
    ensures { ran_of result.0 result.1 ≡ ran }
{
    match ran {
        Ran::Done(k) => (0, k),
        Ran::Spent(k) => (1, k),
        Ran::Crowded => (2, 0),
        Ran::Unkept => (3, 0),
        Ran::Unread => (4, 0),
        Ran::OutFull => (5, 0),
        Ran::Few => (6, 0),
    }
}

// Runs in the fixed order.
#[unsafe(no_mangle)]
pub extern "C" fn talks_go(
    program: &[u32],
    most: u32,
    turns: u32,
    shown: &mut [u32],
    work: &mut [u32],
    count: &mut usize,
) -> u32
    ensures { GoPost program.now most turns shown.old shown.new (length work.old) (ran_of result count.new) }
{
    let (code, total) = coded(go(program, most, turns, shown, work));
    *count = total;
    code
}

// Runs in an order drawn from a seed.
#[unsafe(no_mangle)]
pub extern "C" fn talks_go_seeded(
    program: &[u32],
    most: u32,
    turns: u32,
    seed: u64,
    shown: &mut [u32],
    work: &mut [u32],
    count: &mut usize,
) -> u32
    ensures { GoPost program.now most turns shown.old shown.new (length work.old) (ran_of result count.new) }
{
    let (code, total) = coded(go_seeded(program, most, turns, seed, shown, work));
    *count = total;
    code
}

// The word for what is not there.
const NOTHING: u32 = u32::MAX;

fn line_word(end: Option<End>) -> u32
    ensures { result ≡ line_word end }
{
    match end {
        None => NOTHING,
        Some(e) => e.line,
    }
}

fn side_word(end: Option<End>) -> u32
    ensures { result ≡ side_word end }
{
    match end {
        None => NOTHING,
        Some(e) => e.far as u32,
    }
}

fn number_word(number: Option<u32>) -> u32
    ensures { result ≡ number_word number }
{
    number.unwrap_or(NOTHING)
}

// Writes the five words of a row behind what was written, as far as there is room, and counts them.
fn put_row(left: &mut [u32], at: usize, row: &Left) -> usize
    ensures { Laid left.old left.new at result (row_words row.now) }
{
    let a = write_down(left, at, row.process);
    let b = write_down(left, a, row.place);
    let c = write_down(left, b, line_word(row.end));
    let d = write_down(left, c, side_word(row.end));
    write_down(left, d, number_word(row.holder))
}

// Writes the words of rows.
fn put_rows(left: &mut [u32], rows: &[Left])
    ensures { left.new ≡ overlay (rows_words rows.now) left.old }
{
    let mut at = 0;
    for row in rows {
        at = put_row(left, at, row);
    }
}

// The number of an answer, how many numbers were shown, and how many processes are left.
fn coded_jam(explored: Explored) -> (u32, usize, usize)
    ensures { explored_of result.0 result.1 result.2 ≡ explored }
{
    match explored {
        Explored::Stopped(k) => (0, k, 0),
        Explored::Spent(k) => (1, k, 0),
        Explored::Jammed { shown, left } => (2, shown, left),
        Explored::Crowded => (3, 0, 0),
        Explored::Wide => (4, 0, 0),
        Explored::Unread => (5, 0, 0),
        Explored::Few => (6, 0, 0),
    }
}

// Runs a program, whether or not it keeps, in an order drawn from a seed: 0 all stopped, 1 out of turns, 2 jammed, 3
// too many processes, 4 more conversations or numbers than sixteen, 5 no program, 6 too few work words. Of a jam it is
// told how many processes are left, one of a circle if there is one, and for the first 200 of them a row of five words.
#[unsafe(no_mangle)]
pub extern "C" fn talks_explore(
    program: &[u32],
    most: u32,
    turns: u32,
    seed: u64,
    shown: &mut [u32],
    work: &mut [u32],
    left: &mut [u32],
    count: &mut usize,
    rows: &mut usize,
    on: &mut u32,
) -> u32
    ensures { ExploredWords program.now most turns shown.old shown.new left.old left.new (length work.old) result count.new rows.new on.new }
{
    let mut table = [Left {
        process: 0,
        place: 0,
        end: None,
        holder: None,
    }; 200];
    let (code, total, many) = coded_jam(explore(
        program, most, turns, seed, shown, work, &mut table,
    ));
    let told = &table[..many.min(200)];
    put_rows(left, told);
    *count = total;
    *rows = many;
    *on = number_word(circle(told));
    code
}
