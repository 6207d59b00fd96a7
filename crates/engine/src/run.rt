// Turn after turn, until nobody can go on.
//
// What holds between two turns: each record is a worker of a configuration that some steps have led to; whoever can
// go on is in the queue, nobody twice; whoever waits at an end of a line is noted there, and no two who are noted at
// the two ends of a line can take a step together. So when the queue is empty, no step is possible.
ghost use Rattle.engine.specs.Running.{InPlace};
ghost use Rattle.engine.specs.Ending.{Held, Endings, Tellings};

use crate::step::Run;
use rows::lookup::Rows;
use turns::turn::Trouble;

impl Run<'_> {
    // Runs on until no step is possible any more. Where there are too many processes, or there is what does not happen
    // where a program keeps to its conversations, it stops; in the second case the words are as they were before it.
    pub fn run_on(&mut self, rows: &Rows<'_>, shown: &mut [u32]) -> Result<(), Trouble>
        requires { Held rows.now.words.now rows.now.map.now shown.old self.old }
        ensures ends { Endings rows.now.words.now rows.now.map.now shown.old shown.new self.old self.new result }
        ensures tells { Tellings rows.now.words.now rows.now.map.now shown.old shown.new self.old self.new result }
        ensures keeps { InPlace self.old self.new }
    {
        while self.ready.count > 0 {
            match self.step(rows, shown) {
                Ok(()) => {}
                Err(Trouble::Crowded) => return Err(Trouble::Crowded),
                Err(Trouble::Odd) => return Err(Trouble::Odd),
            }
        }
        Ok(())
    }
}
