// Where things stand in the rows of a program.
ghost use Rattle.std.specs.Prelude.{◌≡◌, ◌+◌, ◌<◌, ◌≤◌, ◌⊎◌, length, replicate, MatchOption, slice_index, slice_set};

// Places of the rows, by numbers from 0 on, and how many there are, of which no more than N are kept. The buffer is fixed,
// since the project takes no heap.
#[derive(Clone, Copy)]
pub struct Places<const N: usize> {
    pub count: usize,
    pub at: [u16; N],
    pub ghost wide: { length at ≡ N },
}

impl<const N: usize> Places<N> {
    // No places.
    pub fn none() -> Places<N>
        ensures { (result.count ≡ 0) × (result.at ≡ replicate N 0) }
    {
        Places {
            count: 0,
            at: [0; N],
        }
    }

    // The place with a number, if there are so many and it is kept.
    pub fn get(&self, number: u32) -> Option<usize>
        ensures { MatchOption result ((self.now.count ≤ number) ⊎ (N ≤ number)) (λ at. (number < self.now.count) × (number < N) × (at ≡ slice_index self.now.at number)) }
    {
        let i = number as usize;
        if i >= self.count {
            return None;
        }
        if i >= N {
            return None;
        }
        Some(usize::from(self.at[i]))
    }

    // One more place, if there is room.
    pub(crate) fn add(&mut self, place: u16) -> Option<()>
        ensures { MatchOption result (N ≤ self.old.count) (λ _. (self.old.count < N) × (self.new.count ≡ self.old.count + 1) × (self.new.at ≡ slice_set self.old.at self.old.count place)) }
    {
        if self.count >= N {
            return None;
        }
        self.at[self.count] = place;
        self.count += 1;
        Some(())
    }
}

// Places of the points and of the processes, the place of the list of other sides, and, by the place of each offer
// and if, the place of its second way.
#[derive(Clone, Copy)]
pub struct Map {
    pub points: Places<256>,
    pub sides: usize,
    pub processes: Places<64>,
    pub second: [u16; 16384],
}

impl Map {
    // A map of nothing.
    pub fn empty() -> Map
        ensures points { (result.points.count ≡ 0) × (result.points.at ≡ replicate 256 0) × (result.sides ≡ 0) }
        ensures processes { (result.processes.count ≡ 0) × (result.processes.at ≡ replicate 64 0) × (result.second ≡ replicate 16384 0) }
    {
        Map {
            points: Places::none(),
            sides: 0,
            processes: Places::none(),
            second: [0; 16384],
        }
    }
}
