// The names of a text and where each stands, and its protocols, read into points.
#![tactic(auto)]

mod protocols;
mod survey;

pub use protocols::{Drafts, find_protocol, read_protocols, settle};
pub use survey::{Survey, look_over};
