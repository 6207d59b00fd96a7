// What an action that may keep to the conversations comes to when it is looked at.
use crate::conversations::Conversations;

// It keeps to them, and ends before a place; it is for what stands at a place to say, with the conversations where they
// are then; or two ways part, the first of which begins at a place, and both are.
#[derive(Clone, Copy)]
pub enum Course {
    Kept(usize),
    On(usize, Conversations),
    Parted(usize, Conversations, Conversations),
}
