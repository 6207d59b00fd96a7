// Protocols: each is written from one side, step by step, and read into points.
use std::alloc::AllocError;
use syntax::Point;
use tokens::{Cursor, Span, Ways, find, keep};

// No more points than this are written: as many again are the other side's.
pub const MOST_POINTS: usize = 128;

// Where a conversation goes on: at a point, or where a protocol begins, on this side or the other.
#[derive(Clone, Copy)]
pub enum Next {
    At(u32),
    Begin { protocol: u32, other: bool },
}

// A point as it is read, before it is known where every protocol begins.
#[derive(Clone, Copy)]
pub enum Draft {
    Over,
    Gives(Next),
    Takes(Next),
    Chooses(Next, Next),
    Offers(Next, Next),
}

// The points of one side as they are read, with the names of each point's two ways, which are empty where it has none.
#[derive(Drop)]
pub struct Drafts {
    pub points: Vec<Draft>,
    pub ways: Vec<Ways>,
    // Where each protocol begins.
    pub starts: Vec<u32>,
}

// A new point, whose number is given back; what it says is filled in later.
fn add_point(c: &mut Cursor, d: &mut Drafts) -> u32 {
    let n = d.points.len();
    if n >= MOST_POINTS {
        c.wrong(
            "the protocols have more than 128 steps in all, counting each `end`: leave some out, or go on at another protocol by `then NAME;`",
        );
        return 0;
    }
    keep(c, &mut d.points, Draft::Over);
    keep(
        c,
        &mut d.ways,
        Ways {
            first: Span::none(),
            second: Span::none(),
        },
    );
    n as u32
}

fn put_point(d: &mut Drafts, i: u32, draft: Draft) {
    let i = i as usize;
    if i < d.points.len() {
        d.points[i] = draft;
    }
}

fn put_ways(d: &mut Drafts, i: u32, ways: Ways) {
    let i = i as usize;
    if i < d.ways.len() {
        d.ways[i] = ways;
    }
}

// `then NAME;` or `then other NAME;`
fn read_then(c: &mut Cursor, s: &[Span]) -> Next {
    let example = "`then NAME;`, or `then other NAME;` for the other side of it";
    let other = c.passes("other");
    let name = c.name("a protocol", example);
    let protocol = find_protocol(c, s, name);
    c.expect_sign(b';', example);
    Next::Begin { protocol, other }
}

// The number of a protocol by its name.
pub fn find_protocol(c: &mut Cursor, s: &[Span], name: Span) -> u32 {
    match find(c.text, s, name) {
        Some(protocol) => protocol,
        None => {
            c.unknown(
                "there is no protocol `",
                name,
                s,
                "`: write `protocol` with this name, or another name here",
            );
            0
        }
    }
}

// `give;` or `take;`, with or without a word on what the number is; then what comes after it.
#[cycle(read_message_read_steps_read_ways)]
fn read_message(c: &mut Cursor, s: &[Span], d: &mut Drafts, this: u32, depth: u32) -> Next {
    let gives = c.is_word("give");
    let i = add_point(c, d);
    c.advance();
    if !c.is_sign(b';') {
        let _ = c.name("what is given or taken", "`give price;` or `take price;`");
    }
    c.expect_sign(b';', "`give price;` or `take price;`");
    let next = read_steps(c, s, d, this, depth);
    put_point(
        d,
        i,
        if gives {
            Draft::Gives(next)
        } else {
            Draft::Takes(next)
        },
    );
    Next::At(i)
}

// The name of a way.
fn read_way_name(c: &mut Cursor) -> Span {
    let example =
        "two ways, each with its name, as in `choose { fare: give price; end; refused: end; }`";
    let name = c.name("a way", example);
    c.expect_sign(b':', example);
    name
}

// The names of the two ways of a point are noted, if they are two.
fn note_ways(c: &mut Cursor, d: &mut Drafts, i: u32, first: Span, second: Span) {
    if c.same(first, second) || c.says(first, "second") || c.says(second, "first") {
        c.wrong_at(
            second.at,
            "the two ways need two names; `first` and `second` name only the ways of that place",
        );
    }
    put_ways(d, i, Ways { first, second });
}

// `choose { a: .. b: .. }` or `offer { a: .. b: .. }`
#[cycle(read_message_read_steps_read_ways)]
fn read_ways(c: &mut Cursor, s: &[Span], d: &mut Drafts, this: u32, depth: u32) -> Next {
    let chooses = c.is_word("choose");
    let i = add_point(c, d);
    c.advance();
    c.expect_sign(
        b'{',
        "`choose { fare: give price; end; refused: end; }`, or `offer` with the same",
    );
    let a = read_way_name(c);
    let first = read_steps(c, s, d, this, depth);
    let b = read_way_name(c);
    let second = read_steps(c, s, d, this, depth);
    note_ways(c, d, i, a, b);
    c.expect_sign(
        b'}',
        "`}` after two ways; for a third way, write a choice in the second",
    );
    put_point(
        d,
        i,
        if chooses {
            Draft::Chooses(first, second)
        } else {
            Draft::Offers(first, second)
        },
    );
    Next::At(i)
}

// How a protocol ends here: `end;`, `again;` or `then`.
fn read_end(c: &mut Cursor, s: &[Span], d: &mut Drafts, this: u32) -> Next {
    if c.passes("end") {
        c.expect_sign(b';', "`end;`");
        return Next::At(add_point(c, d));
    }
    if c.passes("again") {
        c.expect_sign(b';', "`again;`");
        return Next::Begin {
            protocol: this,
            other: false,
        };
    }
    if c.passes("then") {
        return read_then(c, s);
    }
    c.wrong(
        "here the protocol goes on: write `give;`, `take;`, `choose { .. }` or `offer { .. }`, or let it end by `end;`, `again;` or `then NAME;`",
    );
    Next::At(0)
}

// The steps of a protocol from here on, and where they begin.
#[cycle(read_message_read_steps_read_ways)]
fn read_steps(c: &mut Cursor, s: &[Span], d: &mut Drafts, this: u32, depth: u32) -> Next {
    if depth == 0 {
        c.wrong("the protocols have too many steps");
        return Next::At(0);
    }
    if c.is_word("give") || c.is_word("take") {
        return read_message(c, s, d, this, depth - 1);
    }
    if c.is_word("choose") || c.is_word("offer") {
        return read_ways(c, s, d, this, depth - 1);
    }
    read_end(c, s, d, this)
}

// A protocol from its name on.
fn read_protocol(c: &mut Cursor, s: &[Span], d: &mut Drafts, this: u32) {
    let example = "`protocol Adding { take; take; give; end; }`";
    let _ = c.name("a protocol", example);
    c.expect_sign(b'{', example);
    let at = c.at;
    let begin = d.points.len().min(MOST_POINTS) as u32;
    if let Next::Begin {
        protocol: _,
        other: _,
    } = read_steps(c, s, d, this, 256)
    {
        c.wrong_at(
            at,
            "a protocol has a step of its own before `again` or `then`: write `give;`, `take;`, `choose`, `offer` or `end;` first",
        );
    }
    keep(c, &mut d.starts, begin);
    c.expect_sign(
        b'}',
        "`}` here: after `end;`, `again;`, `then` and the ways of `choose` and `offer` nothing follows in a protocol",
    );
}

// All protocols of a text.
pub fn read_protocols(c: &mut Cursor, s: &[Span]) -> Drafts {
    let mut d = Drafts {
        points: Vec::new(c.heap),
        ways: Vec::new(c.heap),
        starts: Vec::new(c.heap),
    };
    let mut this = 0u32;
    for name in s {
        c.go_to(name.at);
        read_protocol(c, s, &mut d, this);
        this = this.saturating_add(1);
    }
    d
}

// The number of the point at which a conversation goes on, where one side has `half` points.
fn number_of(next: Next, starts: &[u32], half: u32) -> u32 {
    match next {
        Next::At(i) => i,
        Next::Begin { protocol, other } => {
            let begin = starts.get(protocol as usize).copied().unwrap_or(0);
            if other {
                begin.saturating_add(half)
            } else {
                begin
            }
        }
    }
}

// What a point says, now that it is known where each protocol begins.
fn settled(draft: Draft, starts: &[u32], half: u32) -> Point {
    match draft {
        Draft::Over => Point::Over,
        Draft::Gives(n) => Point::Gives(number_of(n, starts, half)),
        Draft::Takes(n) => Point::Takes(number_of(n, starts, half)),
        Draft::Chooses(n, m) => Point::Chooses(
            number_of(n, starts, half),
            number_of(m, starts, half),
        ),
        Draft::Offers(n, m) => Point::Offers(
            number_of(n, starts, half),
            number_of(m, starts, half),
        ),
    }
}

// The points of the side that is written.
pub fn settle(d: &Drafts, near: &mut Vec<Point>) -> Result<(), AllocError> {
    let half = d.points.len().min(MOST_POINTS) as u32;
    for draft in d.points.iter() {
        near.push(settled(*draft, d.starts.as_slice(), half))?;
    }
    Ok(())
}
