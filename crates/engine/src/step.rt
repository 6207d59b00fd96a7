// One turn of a run.
ghost use Rattle.std.specs.Prelude.{◌≡◌, ℕ, ◌^◌, ◌<◌, ◌≤◌, List, [], ◌∷◌, ◌++◌, length};

use crate::act::act;
use crate::order::Order;
use crate::shown::write_down;
use queues::lines::Line;
use queues::ring::Queue;
use records::process::Record;
use rows::lookup::Rows;
use turns::turn::{Trouble, Turn};

// Where a run stands: a record for each process that there may be, who waits at the ends of lines, who can go on, how
// many processes there are, how many numbers were shown, and the order.
#[derive(Drop)]
pub struct Run<'a> {
    pub processes: &'a mut [Record],
    pub lines: &'a mut [Line],
    pub ready: Queue<'a>,
    pub count: usize,
    pub total: usize,
    pub order: Order,
    pub ghost code: { length processes.now < 2 ^ 32 },
    pub ghost sides: { length processes.now ≤ length lines.now },
    pub ghost slots: { length processes.now ≤ length ready.slots.now },
    pub ghost fits: { count ≤ length processes.now },
}

impl Run<'_> {
    ghost use Rattle.engine.specs.Running.{InPlace, Right, Leaves, Stays};

    // One turn of the run, of the process that is next in its order. It stays in the queue as long as it can go on. Where
    // the turn cannot be taken, nothing of it is counted, and the same process is next.
    pub fn step(&mut self, rows: &Rows<'_>, shown: &mut [u32]) -> Result<(), Trouble>
        requires { 0 < self.old.ready.count }
        ensures room { length self.new.processes.now ≡ length self.old.processes.now }
        ensures right { Right rows.now.words.now rows.now.map.now shown.old shown.new self.old self.new result }
        ensures leaves { Leaves rows.now.words.now rows.now.map.now shown.old shown.new self.old self.new result }
        ensures stays { Stays self.old self.new result }
        ensures keeps { InPlace self.old self.new }
    {
        let mut order = self.order;
        let place = order.draw_place(self.ready.count);
        let i = self.ready.look(place);
        if i as usize >= self.count {
            return Err(Trouble::Odd);
        }
        match act(rows, self.processes, self.lines, self.count, i)? {
            Turn::On => {}
            Turn::Shown(value) => {
                if i == 0 {
                    self.total = write_down(shown, self.total, value);
                }
            }
            Turn::Both(j) => {
                if self.ready.count >= self.ready.slots.len() {
                    return Err(Trouble::Odd);
                }
                self.ready.push(j);
            }
            Turn::Started => {
                if self.ready.count >= self.ready.slots.len()
                    || self.count >= self.processes.len()
                {
                    return Err(Trouble::Odd);
                }
                self.ready.push(self.count as u32);
                self.count += 1;
            }
            Turn::Off => self.ready.leave(place),
        }
        self.order = order;
        Ok(())
    }
}
