// What printing gives.

// A text, and whether it gives the same rows once it is read again.
#[derive(Drop)]
pub struct Printed {
    pub text: String,
    pub same: bool,
}
