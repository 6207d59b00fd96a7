// The tree of a program. Conversations, variables, points and processes are named by their numbers.

// What comes next in a conversation, as one side sees it; the numbers are the points at which it goes on.
#[derive(Clone, Copy)]
pub enum Point {
    Over,
    Gives(u32),
    Takes(u32),
    Chooses(u32, u32),
    Offers(u32, u32),
}

// An expression over the variables of a process.
#[derive(Drop)]
pub enum Expression {
    Num(u32),
    Var(u32),
    Add(Box<Expression>, Box<Expression>),
    Sub(Box<Expression>, Box<Expression>),
    Mul(Box<Expression>, Box<Expression>),
    Less(Box<Expression>, Box<Expression>),
}

// What a process does: an action, and what comes after it. The first number of each is the byte of the text at
// which the action begins; it means nothing for the program.
#[derive(Drop)]
pub enum Action {
    Stop(usize),
    Give(usize, u32, Expression, Box<Action>),
    Take(usize, u32, u32, Box<Action>),
    Choose(usize, u32, u32, Box<Action>),
    Offer(usize, u32, Box<Action>, Box<Action>),
    Set(usize, u32, Expression, Box<Action>),
    If(usize, Expression, Box<Action>, Box<Action>),
    Show(usize, Expression, Box<Action>),
    Start(usize, u32, Vec<u32>, Vec<Expression>, Box<Action>),
    Become(usize, u32, Vec<u32>, Vec<Expression>),
}

// A process: the points at which its conversations begin, how many numbers are handed in, how many variables it
// has, and what it does.
#[derive(Drop)]
pub struct Process {
    pub talks: Vec<u32>,
    pub nums: u32,
    pub vars: u32,
    pub body: Action,
}

// The action at this word of the rows begins at this byte of the text.
#[derive(Clone, Copy)]
pub struct Mark {
    pub word: usize,
    pub at: usize,
}
