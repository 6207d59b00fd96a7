// A line that is being read.

#[derive(Drop)]
pub struct Line {
    pub words: Vec<u32>,
    // The number that stands last, and may go on; none after a blank.
    pub last: Option<u32>,
    // Whether all words so far are numbers of 32 bits.
    pub good: bool,
}
