// The queue of processes that can go on, as a ring over lent words.
ghost use Rattle.std.specs.Prelude.{◌≡◌, ◌<◌, ◌≤◌, length};
ghost use Rattle.std.proofs.Math.Option.{some};
ghost use Rattle.model.specs.Program.{nth};
ghost use Rattle.queues.specs.Slots.{slot};

// The slots, the first that is taken, and how many are.
#[derive(Drop)]
pub struct Queue<'a> {
    pub slots: &'a mut [u32],
    pub head: usize,
    pub count: usize,
    pub ghost inside: { head < length slots.now },
    pub ghost few: { count ≤ length slots.now },
}

// The slot so many places after the first.
fn slot_after(slots: usize, head: usize, places: usize) -> usize
    requires head { head < slots }
    requires places { places ≤ slots }
    ensures { result ≡ slot slots head places }
{
    if places < slots - head {
        return head + places;
    }
    places - (slots - head)
}

impl Queue<'_> {
    ghost use Rattle.queues.specs.Rings.{items, Pushed, Gone, Took};

    // Puts one at the end of the queue.
    pub fn push(&mut self, who: u32)
        requires { self.old.count < length self.old.slots.now }
        ensures pushed { Pushed self.old self.new who }
        ensures same_reference { self.new.slots.ghost_name ≡ self.old.slots.ghost_name }
    {
        let at = slot_after(self.slots.len(), self.head, self.count);
        self.slots[at] = who;
        self.count += 1;
    }

    // The one at a place of the queue, the first for 0.
    pub fn look(&self, place: usize) -> u32
        requires { place < self.now.count }
        ensures { nth (items self.now) place ≡ some result }
    {
        let at = slot_after(self.slots.len(), self.head, place);
        self.slots[at]
    }

    // Takes out the one at a place of the queue, the first for 0; the first comes to stand in its place.
    pub fn leave(&mut self, place: usize)
        requires { place < self.old.count }
        ensures gone { Gone self.old self.new place }
        ensures same_reference { self.new.slots.ghost_name ≡ self.old.slots.ghost_name }
    {
        let gap = slot_after(self.slots.len(), self.head, place);
        let next = slot_after(self.slots.len(), self.head, 1);
        self.slots[gap] = self.slots[self.head];
        self.head = next;
        self.count -= 1;
    }

    // Takes out the one at a place of the queue, the first for 0, and answers which it is.
    pub fn take(&mut self, place: usize) -> u32
        requires { place < self.old.count }
        ensures took { Took self.old self.new place result }
        ensures same_reference { self.new.slots.ghost_name ≡ self.old.slots.ghost_name }
    {
        let who = self.look(place);
        self.leave(place);
        who
    }
}
