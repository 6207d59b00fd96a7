// What the calls answer.

// What is said of rows of words: they are a program that keeps to its conversations, one that does not, or no program.
#[derive(Clone, Copy, PartialEq, Eq, Debug)]
pub enum Judged {
    Keeps,
    Careless,
    NoProgram,
}

// How a run came out, in the order in which the answers are looked for: too few work words; no program; a program that
// does not keep; too many processes; more numbers shown than there is room for; or all have stopped, or some process is
// out of turns, with so many numbers shown.
#[derive(Clone, Copy, PartialEq, Eq, Debug)]
pub enum Ran {
    Done(usize),
    Spent(usize),
    Crowded,
    Unkept,
    Unread,
    OutFull,
    Few,
}
