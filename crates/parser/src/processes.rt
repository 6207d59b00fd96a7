// Processes: their names, conversations, numbers and variables, and what they do.
use actions::{Flat, Reader, Talk, read_actions};
use protocols::find_protocol;
use tokens::{Token, find, keep};

// How deep `if` and `offer` may stand one in another.
const DEEPEST: u32 = 257;

// How many variables, and how many conversations, a process may have.
const MOST_NAMES: usize = 16;

// `Adding`, `other Adding`, or `?N`: the point at which a conversation begins.
fn read_begin(r: &mut Reader) -> u32 {
    if let Token::Unnamed(n) = r.c.token {
        r.c.advance();
        return n;
    }
    let other = r.c.passes("other");
    let name = r.c.name(
        "a protocol",
        "`till(t: Adding)`, or `till(t: other Adding)` for the other side of it",
    );
    let protocol = find_protocol(&mut r.c, r.known.protocols.as_slice(), name);
    let begin = r.known.starts.get(protocol as usize).copied().unwrap_or(0);
    if other { r.known.other(begin) } else { begin }
}

// `C: PROTOCOL`, a conversation of a process.
fn read_talk(r: &mut Reader, points: &mut Vec<u32>) {
    let example = "`till(t: Adding, gate: other Weighing)`";
    let name = r.c.name("a conversation", example);
    if r.scope.talk(r.c.text, name).is_some() {
        r.c.wrong_name(
            "there are two conversations `",
            name,
            "`: write another name for one",
        );
    }
    if points.len() >= MOST_NAMES {
        r.c.wrong_at(
            name.at,
            "this is one conversation too many: a process has at most 16",
        );
    }
    r.c.expect_sign(b':', example);
    let begin = read_begin(r);
    keep(&mut r.c, points, begin);
    keep(
        &mut r.c,
        &mut r.scope.talks,
        Talk {
            name,
            at: Some(begin),
        },
    );
}

// `(C: PROTOCOL, ..)`, the conversations of a process.
fn read_talks(r: &mut Reader, points: &mut Vec<u32>) {
    if !r.c.passes_sign(b'(') || r.c.passes_sign(b')') {
        return;
    }
    for _ in 0..r.c.text.len() {
        read_talk(r, points);
        if !r.c.passes_sign(b',') {
            break;
        }
    }
    r.c.expect_sign(b')', "`,` and another conversation, or `)`");
}

// The name of a variable.
fn read_variable(r: &mut Reader) {
    let name = r.c.name("a variable", "`var plate, weight;`");
    if find(r.c.text, r.scope.vars.as_slice(), name).is_some() {
        r.c.wrong_name(
            "there are two variables `",
            name,
            "`: write another name for one",
        );
    }
    if r.scope.vars.len() >= MOST_NAMES {
        r.c.wrong_at(
            name.at,
            "this is one variable too many: a process has at most 16, those after `with` counted",
        );
    }
    keep(&mut r.c, &mut r.scope.vars, name);
}

// Names of variables, one after the other with `,` between.
fn read_variables(r: &mut Reader) {
    for _ in 0..r.c.text.len() {
        read_variable(r);
        if !r.c.passes_sign(b',') {
            return;
        }
    }
}

// `var X, Y;` as often as it stands here.
fn read_declarations(r: &mut Reader) {
    for _ in 0..r.c.text.len() {
        if !r.c.passes("var") {
            return;
        }
        read_variables(r);
        r.c.expect_sign(b';', "`var plate, weight;`");
    }
}

// The point of the first conversation of a process that is named here.
pub fn read_first(r: &mut Reader) -> Option<u32> {
    let example = "`process till(t: Adding) { .. }`";
    let _ = r.c.name("a process", example);
    if !r.c.passes_sign(b'(') || r.c.is_sign(b')') {
        return None;
    }
    let _ = r.c.name("a conversation", example);
    r.c.expect_sign(b':', example);
    Some(read_begin(r))
}

fn to_u32(n: usize) -> u32 {
    n.min(1 << 20) as u32
}

// The numbers that are handed in, which are the first variables, and how many they are.
fn read_numbers(r: &mut Reader) -> u32 {
    if r.c.passes("with") {
        read_variables(r);
    }
    to_u32(r.scope.vars.len())
}

// A process from its name on.
pub fn read_process(r: &mut Reader) -> Flat {
    let example = "`process till(t: Adding) with first, second { .. }`";
    r.scope.talks.clear();
    r.scope.vars.clear();
    let mut talks = Vec::new(r.c.heap);
    let mut parts = Vec::new(r.c.heap);
    let _ = r.c.name("a process", example);
    read_talks(r, &mut talks);
    let nums = read_numbers(r);
    r.c.expect_sign(b'{', example);
    read_declarations(r);
    read_actions(r, &mut parts, DEEPEST);
    r.c.expect_sign(
        b'}',
        "`}` here: after `stop`, `become`, `if` and `offer` nothing follows in a process",
    );
    let vars = to_u32(r.scope.vars.len());
    Flat {
        talks,
        nums,
        vars,
        parts,
    }
}
