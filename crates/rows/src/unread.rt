// Words before it is known whether they are a program.
ghost use Rattle.std.specs.Prelude.{◌≤◌, length};

// No more words than a program may have, so that each place of them fits into a table.
#[derive(Clone, Copy)]
pub struct Unread<'a> {
    pub words: &'a [u32],
    ghost short: { length words.now ≤ 16384 },
}
