// What a turn of a process answers.

// The process goes on; it goes on and a number was shown; it goes on and so does the one that waited for it; it goes
// on and a new process begins; or it does not go on by itself.
#[derive(Clone, Copy, PartialEq, Eq, Debug)]
pub enum Turn {
    On,
    Shown(u32),
    Both(u32),
    Started,
    Off,
}

// Why a turn cannot be taken: there are too many processes; or there is what does not happen where a program keeps to
// its conversations.
#[derive(Clone, Copy, PartialEq, Eq, Debug)]
pub enum Trouble {
    Crowded,
    Odd,
}
