// What is known of a text once its protocols are read, and the process that is being read.
use syntax::Point;
use tokens::{Cursor, Span, Ways, part};

// All names that a process may use. `firsts` has for each process the point of its first conversation.
#[derive(Drop)]
pub struct Known {
    pub protocols: Vec<Span>,
    pub starts: Vec<u32>,
    pub points: Vec<Point>,
    pub ways: Vec<Ways>,
    pub processes: Vec<Span>,
    pub firsts: Vec<Option<u32>>,
}

// A conversation of the process that is read: its name, and at which point it is, unless it was handed on or has
// gone astray.
#[derive(Clone, Copy)]
pub struct Talk {
    pub name: Span,
    pub at: Option<u32>,
}

// The conversations and variables of the process that is read, and how many more parts the program may have.
#[derive(Drop)]
pub struct Scope {
    pub talks: Vec<Talk>,
    pub vars: Vec<Span>,
    pub left: u32,
}

// A place in the text, what is known of the text, and the process that is read.
#[derive(Drop)]
pub struct Reader<'a> {
    pub c: Cursor<'a>,
    pub known: Known,
    pub scope: Scope,
}

impl Known {
    // How many points one side has.
    pub fn half(&self) -> u32 {
        (self.ways.len().min(128)) as u32
    }

    // The other side's point.
    pub fn other(&self, point: u32) -> u32 {
        let half = self.half();
        if point < half {
            point.saturating_add(half)
        } else {
            point - half
        }
    }

    // What a conversation's point says; that it is over where there is none.
    pub fn point(&self, at: Option<u32>) -> Point {
        match at {
            Some(i) => self.points.get(i as usize).copied().unwrap_or(Point::Over),
            None => Point::Over,
        }
    }

    // The names of the two ways of a conversation's point.
    pub fn names_of_ways(&self, at: Option<u32>) -> Ways {
        let none = Ways {
            first: Span::none(),
            second: Span::none(),
        };
        match at {
            Some(i) => {
                let half = self.half();
                let near = if i < half { i } else { i - half };
                self.ways.get(near as usize).copied().unwrap_or(none)
            }
            None => none,
        }
    }

    // Which way a name means at any point that has it.
    pub fn way_anywhere(&self, text: &str, name: Span) -> Option<u32> {
        let word = part(text, name);
        for w in self.ways.iter() {
            if part(text, w.first) == word {
                return Some(0);
            }
            if part(text, w.second) == word {
                return Some(1);
            }
        }
        None
    }

    // The point at which a process's first conversation begins, from the other side.
    pub fn facing(&self, process: u32) -> Option<u32> {
        match self.firsts.get(process as usize).copied() {
            Some(Some(first)) => Some(self.other(first)),
            _ => None,
        }
    }
}

impl Scope {
    // The number of a conversation by its name; the last of that name.
    pub fn talk(&self, text: &str, name: Span) -> Option<u32> {
        let word = part(text, name);
        let mut i = 0u32;
        for t in self.talks.iter() {
            if part(text, t.name) == word {
                return Some(i);
            }
            i = i.saturating_add(1);
        }
        None
    }

    // At which point a conversation is.
    pub fn place(&self, talk: u32) -> Option<u32> {
        match self.talks.get(talk as usize) {
            Some(t) => t.at,
            None => None,
        }
    }

    // The conversation goes on at this point.
    pub fn move_to(&mut self, talk: u32, at: Option<u32>) {
        let i = talk as usize;
        if i < self.talks.len() {
            let name = self.talks[i].name;
            self.talks[i] = Talk { name, at };
        }
    }
}

impl<'a> Reader<'a> {
    // What the point at which a conversation is says.
    pub fn point_of(&self, talk: u32) -> Point {
        self.known.point(self.scope.place(talk))
    }

    // The names of the two ways of the point at which a conversation is.
    pub fn ways_of(&self, talk: u32) -> Ways {
        self.known.names_of_ways(self.scope.place(talk))
    }

    // One more part of the program.
    pub fn count(&mut self) {
        if self.scope.left == 0 {
            self.c.wrong(
                "the program is too long: it may have 16384 words in all; move a part into a process that is used more than once",
            );
            return;
        }
        self.scope.left -= 1;
    }
}
