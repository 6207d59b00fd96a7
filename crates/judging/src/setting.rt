// What stays the same while one process is gone through.
use rows::lookup::Rows;

// The rows of the program, how many variables the process has, and whether it is process 0.
#[derive(Clone, Copy)]
pub struct Setting<'a> {
    pub rows: Rows<'a>,
    pub variables: u32,
    pub root: bool,
}
