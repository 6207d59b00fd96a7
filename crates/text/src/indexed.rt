// What a text says, with the places of what it says.
use syntax::Mark;
use tokens::Span;

// The rows of a text; where the name of each process stands, in the order of the processes; and for each action of
// each process, in the order of the rows, the word at which it begins and the byte of the text.
#[derive(Drop)]
pub struct Indexed {
    pub rows: Vec<u32>,
    pub names: Vec<Span>,
    pub marks: Vec<Mark>,
}
