// The circle in which processes wait.
use crate::waits::Jam;
use exploring::circle;
use sources::Failed;

impl Jam<'_> {
    // Who holds the other end of where a process waits.
    fn after(&self, process: u32) -> Option<u32> {
        match self.find(process) {
            None => None,
            Some(one) => one.holder,
        }
    }

    // Whether a process is one of those that wait in the circle that goes through another.
    pub(crate) fn on_circle(&self, through: u32, process: u32) -> bool {
        let mut at = through;
        for _ in 0..self.left.len() {
            if at == process {
                return true;
            }
            match self.after(at) {
                None => return false,
                Some(next) => at = next,
            }
        }
        false
    }

    // Writes the circle, if there is one: each waits for the next.
    pub(crate) fn put_circle(&self, out: &mut String) -> Result<(), Failed> {
        let Some(from) = circle(self.left) else {
            return Ok(());
        };
        out.push_str("circle: ")?;
        self.put_process(from, out)?;
        let mut at = from;
        for _ in 0..self.left.len() {
            match self.after(at) {
                None => break,
                Some(next) => at = next,
            }
            out.push_str(" -> ")?;
            self.put_process(at, out)?;
            if at == from {
                break;
            }
        }
        out.push_str("\n")?;
        Ok(())
    }
}
