// Answers of runs, as they are printed.
use sources::Failed;
use talks::Ran;

// The first so many numbers.
fn put_numbers(out: &mut String, how: &str, count: usize, numbers: &[u32]) -> Result<(), Failed> {
    write!(out, "{how} {count}:")?;
    for n in numbers.iter().take(count) {
        write!(out, " {n}")?;
    }
    Ok(())
}

// What a run answers, with the numbers that were shown.
pub(crate) fn put_answer(out: &mut String, ran: Ran, shown: &[u32]) -> Result<(), Failed> {
    match ran {
        Ran::Done(count) => return put_numbers(out, "done", count, shown),
        Ran::Spent(count) => return put_numbers(out, "spent", count, shown),
        Ran::Crowded => out.push_str("crowded")?,
        Ran::OutFull => out.push_str("out full")?,
        Ran::Unkept => out.push_str("unkept")?,
        Ran::Unread => out.push_str("unread")?,
        Ran::Few => out.push_str("few")?,
    }
    Ok(())
}

// Whether a run came to its end.
pub(crate) fn ended(ran: Ran) -> bool {
    match ran {
        Ran::Done(_n) => true,
        Ran::Spent(_n) => true,
        _ => false,
    }
}

// How many numbers an answer has.
fn count_of(ran: Ran) -> usize {
    match ran {
        Ran::Done(n) => n,
        Ran::Spent(n) => n,
        _ => 0,
    }
}

// Whether two runs answer the same.
pub(crate) fn agree(a: Ran, a_shown: &[u32], b: Ran, b_shown: &[u32]) -> bool {
    if a != b {
        return false;
    }
    for (x, y) in a_shown.iter().zip(b_shown.iter()).take(count_of(a)) {
        if *x != *y {
            return false;
        }
    }
    true
}
