// The conversations of a process that is gone through.
ghost use Rattle.std.specs.Prelude.{◌≡◌, ◌≤◌, [], length};

// At which point each conversation is, or none where it was handed on; sixteen at most. The buffer is fixed, since the
// project takes no heap.
#[derive(Clone, Copy)]
pub struct Conversations {
    pub count: usize,
    pub points: [Option<u32>; 16],
    ghost few: { count ≤ 16 },
    ghost wide: { length points ≡ 16 },
}

impl Conversations {
    ghost use Rattle.std.proofs.Math.Option.{some, none};
    ghost use Rattle.judging.specs.Standing.{held, stand, Added};
    ghost use Rattle.model.specs.Program.{nth, or, put};

    // No conversation.
    pub(crate) fn none() -> Conversations
        ensures { stand result ≡ [] }
    {
        Conversations {
            count: 0,
            points: [None; 16],
        }
    }

    // The point of a conversation, if it is there and not handed on.
    pub(crate) fn point(&self, conversation: u32) -> Option<u32>
        ensures { held result ≡ or none (nth (stand self.now) conversation) }
    {
        *self.points[..self.count].get(conversation as usize)?
    }

    // Puts a conversation at another point, or hands it on; one that is not there stays so.
    pub(crate) fn move_to(&mut self, conversation: u32, point: Option<u32>)
        ensures { stand self.new ≡ put (stand self.old) conversation (held point) }
    {
        let c = conversation as usize;
        if c < self.count {
            self.points[c] = point;
        }
    }

    // The conversations with one of them at another point.
    pub(crate) fn moved(&self, conversation: u32, point: u32) -> Conversations
        ensures { stand result ≡ put (stand self.now) conversation (some point) }
    {
        let mut after = *self;
        after.move_to(conversation, Some(point));
        after
    }

    // One more conversation, at a point; none where there are sixteen.
    pub(crate) fn add(&mut self, point: u32) -> Option<()>
        ensures { Added (stand self.old) (stand self.new) point result }
    {
        if self.count == 16 {
            return None;
        }
        self.points[self.count] = Some(point);
        self.count += 1;
        Some(())
    }
}
