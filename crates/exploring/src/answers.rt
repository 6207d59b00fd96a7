// What exploring answers.
use records::process::End;

// How a run came out: all have stopped, or some process is out of turns, or it has jammed, each with so many numbers
// shown; there are too many processes; somebody would have more conversations or variables than there is room for; no
// program; or too few work words. Of a run that has jammed it is also said how many processes are left.
#[derive(Clone, Copy)]
pub enum Explored {
    Stopped(usize),
    Spent(usize),
    Jammed { shown: usize, left: usize },
    Crowded,
    Wide,
    Unread,
    Few,
}

// A process that is left where a run has jammed: its number, the place in the rows of what it would do next, the end at
// which it waits, if it waits at one, and the first process that holds the facing end, if one does.
#[derive(Clone, Copy)]
pub struct Left {
    pub process: u32,
    pub place: u32,
    pub end: Option<End>,
    pub holder: Option<u32>,
}
