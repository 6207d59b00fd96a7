// What a process does as a list of parts in the order of the text.
use syntax::Expression;

// An action without what comes after it, and the byte at which it begins.
#[derive(Drop)]
pub struct Part {
    pub at: usize,
    pub act: Act,
}

#[derive(Drop)]
pub enum Act {
    Stop,
    Become(Handed),
    Step(Step),
    Fork(Fork),
}

// An action after which another comes.
#[derive(Drop)]
pub enum Step {
    Give(u32, Expression),
    Take(u32, u32),
    Choose(u32, u32),
    Set(u32, Expression),
    Show(Expression),
    Start(Handed),
}

// An action after which two ways come. Of an offer, whether the second is written first.
#[derive(Drop)]
pub enum Fork {
    If(Expression),
    Offer(u32, bool),
}

// The process that is started or become, and what it is handed.
#[derive(Drop)]
pub struct Handed {
    pub process: u32,
    pub talks: Vec<u32>,
    pub values: Vec<Expression>,
}

// A process: the points at which its conversations begin, how many numbers are handed in, how many variables it
// has, and what it does.
#[derive(Drop)]
pub struct Flat {
    pub talks: Vec<u32>,
    pub nums: u32,
    pub vars: u32,
    pub parts: Vec<Part>,
}
