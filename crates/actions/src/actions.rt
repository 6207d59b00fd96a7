// What a process does, read action by action into a list of parts.
use crate::expressions::read_expression;
use crate::parts::{Act, Fork, Part};
use crate::reader::{Reader, Talk};
use crate::steps::{no_action, read_handed, read_step, talk, way};
use syntax::Point;
use tokens::keep;

// `become P(C, ..) with E, ..;`
fn read_become(r: &mut Reader, parts: &mut Vec<Part>, at: usize) {
    let handed = read_handed(r);
    r.c.expect_sign(b';', "`;` after `become till(t) with 5`");
    keep(
        &mut r.c,
        parts,
        Part {
            at,
            act: Act::Become(handed),
        },
    );
}

// `{ .. }`
#[cycle(read_actions_read_block_read_if_read_last_read_offer)]
fn read_block(r: &mut Reader, parts: &mut Vec<Part>, depth: u32) {
    r.c.expect_sign(b'{', "`if price < 100 { .. } else { .. }`");
    read_actions(r, parts, depth);
    r.c.expect_sign(
        b'}',
        "`}` here: after `stop`, `become`, `if` and `offer` nothing follows in a block; to go on alike after both ways, let both `become` one process",
    );
}

// Where the conversations are, for the second of two ways.
fn save_talks(r: &mut Reader) -> Vec<Talk> {
    match r.scope.talks.as_slice().to_vec(r.c.heap) {
        Ok(talks) => talks,
        Err(_) => {
            r.c.out_of_memory();
            Vec::new(r.c.heap)
        }
    }
}

// `if E { .. } else { .. }`
#[cycle(read_actions_read_block_read_if_read_last_read_offer)]
fn read_if(r: &mut Reader, parts: &mut Vec<Part>, at: usize, depth: u32) {
    let e = read_expression(r);
    keep(
        &mut r.c,
        parts,
        Part {
            at,
            act: Act::Fork(Fork::If(e)),
        },
    );
    let talks = save_talks(r);
    read_block(r, parts, depth);
    r.scope.talks = talks;
    r.c.expect(
        "else",
        "`else { .. }` after the block of `if`: both ways are written, with `stop;` in one that does nothing",
    );
    read_block(r, parts, depth);
}

// The name of a way of an offer; which of the two it is, where the conversation is at an offer.
fn read_way_name(r: &mut Reader, t: u32, place: u32) -> u32 {
    let example = "`offer in office { fare: .. refused: .. }`";
    let name = r.c.name("a way", example);
    r.c.expect_sign(b':', example);
    if r.ways_of(t).first.is_empty() {
        return place;
    }
    way(r, t, name)
}

// The beginning of a way of an offer, and which it is; the conversation goes on there.
fn enter_way(r: &mut Reader, t: u32, place: u32) -> u32 {
    let w = read_way_name(r, t, place);
    let next = match r.point_of(t) {
        Point::Offers(n, m) => Some(if w == 0 { n } else { m }),
        _ => None,
    };
    r.scope.move_to(t, next);
    w
}

// `in C {`, after `offer`
fn read_offer_head(r: &mut Reader) -> u32 {
    let example = "`offer in office { fare: .. refused: .. }`";
    r.c.expect("in", example);
    let t = talk(r);
    r.c.expect_sign(b'{', example);
    t
}

// An offer is put where its part was kept free.
fn put_offer(parts: &mut Vec<Part>, i: usize, at: usize, t: u32, swapped: bool) {
    if i < parts.len() {
        parts[i] = Part {
            at,
            act: Act::Fork(Fork::Offer(t, swapped)),
        };
    }
}

// `offer in C { WAY: .. WAY: .. }`, in either order
#[cycle(read_actions_read_block_read_if_read_last_read_offer)]
fn read_offer(r: &mut Reader, parts: &mut Vec<Part>, at: usize, depth: u32) {
    let t = read_offer_head(r);
    let i = parts.len();
    keep(&mut r.c, parts, Part { at, act: Act::Stop });
    let talks = save_talks(r);
    let v = enter_way(r, t, 0);
    read_actions(r, parts, depth);
    r.scope.talks = talks;
    let again = r.c.at;
    let w = enter_way(r, t, 1);
    read_actions(r, parts, depth);
    if v == w {
        r.c.wrong_at(
            again,
            "this way stands here twice: write both ways, each once",
        );
    }
    r.c.expect_sign(b'}', "`}` after the two ways of `offer`");
    put_offer(parts, i, at, t, v != 0);
}

// The last action, if one stands here: after it nothing comes.
#[cycle(read_actions_read_block_read_if_read_last_read_offer)]
fn read_last(r: &mut Reader, parts: &mut Vec<Part>, depth: u32) -> bool {
    let at = r.c.at;
    if r.c.passes("stop") {
        r.count();
        r.c.expect_sign(b';', "`stop;`");
        keep(&mut r.c, parts, Part { at, act: Act::Stop });
        return true;
    }
    if r.c.passes("become") {
        r.count();
        read_become(r, parts, at);
        return true;
    }
    if r.c.passes("if") {
        r.count();
        read_if(r, parts, at, depth);
        return true;
    }
    if r.c.passes("offer") {
        r.count();
        read_offer(r, parts, at, depth);
        return true;
    }
    false
}

// All actions to the last.
#[cycle(read_actions_read_block_read_if_read_last_read_offer)]
pub fn read_actions(r: &mut Reader, parts: &mut Vec<Part>, depth: u32) {
    if depth == 0 {
        r.c.wrong(
            "`if` and `offer` stand more than 256 one in another: move the inner ones into a process of their own and `become` it",
        );
        return;
    }
    for _ in 0..r.c.text.len() {
        if r.c.is_end() {
            break;
        }
        if read_last(r, parts, depth - 1) {
            return;
        }
        let at = r.c.at;
        let step = read_step(r);
        keep(
            &mut r.c,
            parts,
            Part {
                at,
                act: Act::Step(step),
            },
        );
    }
    no_action(r);
}
