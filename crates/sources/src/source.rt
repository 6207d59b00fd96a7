// Where a program is read from.
use crate::failed::Failed;
use std::io;

// Who reads, for messages, and what is read: the path of a file, or `-` for the standard input.
#[derive(Clone, Copy)]
pub struct Source<'a> {
    pub reader: &'a str,
    pub path: &'a str,
}

impl<'a> Source<'a> {
    // What it is called in messages.
    pub fn called(self) -> &'a str {
        if self.path == "-" {
            "standard input"
        } else {
            self.path
        }
    }

    // Says why it cannot be read.
    pub fn unreadable(self, rt: &HostRuntime, e: io::Error) -> Result<Failed, Failed> {
        let reader = self.reader;
        let name = self.called();
        eprintln!(rt; "{reader}: {name}: {e}")?;
        Ok(Failed::Said)
    }
}
