// Actions after which another comes: give, take, choose, set, show and start.
use crate::expressions::{read_expression, variable};
use crate::parts::{Handed, Step};
use crate::reader::{Reader, Talk};
use syntax::{Expression, Point};
use tokens::{Span, Token, find, is_close, keep, part};

// A conversation of the process whose name is close to one that it does not have.
fn guess_talk(r: &Reader, name: Span) -> Option<Span> {
    for t in r.scope.talks.iter() {
        if is_close(part(r.c.text, t.name), part(r.c.text, name)) {
            return Some(t.name);
        }
    }
    None
}

fn unknown_talk(r: &mut Reader, name: Span) {
    match guess_talk(r, name) {
        Some(near) => r.c.unknown_near("there is no conversation `", name, near),
        None => r.c.wrong_name(
            "there is no conversation `",
            name,
            "`: write it in the process's parentheses, or after `as` where it is started",
        ),
    }
}

// The number of a conversation by its name.
pub fn talk(r: &mut Reader) -> u32 {
    if let Token::Unnamed(n) = r.c.token {
        r.c.advance();
        return n;
    }
    let name = r.c.name(
        "a conversation",
        "`give 5 to till;` or `take sum from till;`",
    );
    match r.scope.talk(r.c.text, name) {
        Some(t) => t,
        None => {
            unknown_talk(r, name);
            0
        }
    }
}

// `give E to C;`
fn read_give(r: &mut Reader) -> Step {
    let e = read_expression(r);
    r.c.expect("to", "`give price to office;`");
    let t = talk(r);
    r.c.expect_sign(b';', "`;` after `give price to office`");
    let next = match r.point_of(t) {
        Point::Gives(n) => Some(n),
        _ => None,
    };
    r.scope.move_to(t, next);
    Step::Give(t, e)
}

// `take X from C;`
fn read_take(r: &mut Reader) -> Step {
    let x = variable(r);
    r.c.expect("from", "`take price from office;`");
    let t = talk(r);
    r.c.expect_sign(b';', "`;` after `take price from office`");
    let next = match r.point_of(t) {
        Point::Takes(n) => Some(n),
        _ => None,
    };
    r.scope.move_to(t, next);
    Step::Take(t, x)
}

// Which way a name means for a conversation: by the point at which it is, or, where that has no ways, by any
// point that has a way of this name.
pub fn way(r: &mut Reader, t: u32, name: Span) -> u32 {
    let names = r.ways_of(t);
    if r.c.says(name, "first") || r.c.same(name, names.first) {
        return 0;
    }
    if r.c.says(name, "second") || r.c.same(name, names.second) {
        return 1;
    }
    if !names.first.is_empty() {
        r.c.wrong_way(name, names);
        return 0;
    }
    match r.known.way_anywhere(r.c.text, name) {
        Some(w) => w,
        None => {
            r.c.wrong_name(
                "no protocol has a way `",
                name,
                "`: write the name of a way of `choose` or `offer`",
            );
            0
        }
    }
}

// The way of a choice: its number, or else its name.
fn read_way(r: &mut Reader, example: &str) -> Result<u32, Span> {
    if let Token::Unnamed(n) = r.c.token {
        r.c.advance();
        return Ok(n);
    }
    Err(r.c.name("a way", example))
}

// `choose WAY in C;`
fn read_choose(r: &mut Reader) -> Step {
    let example = "`choose fare in office;`";
    let named = read_way(r, example);
    r.c.expect("in", example);
    let t = talk(r);
    r.c.expect_sign(b';', example);
    let w = match named {
        Ok(n) => n,
        Err(name) => way(r, t, name),
    };
    let next = match r.point_of(t) {
        Point::Chooses(n, m) => Some(if w == 0 { n } else { m }),
        _ => None,
    };
    r.scope.move_to(t, next);
    Step::Choose(t, w)
}

// `set X = E;`
fn read_set(r: &mut Reader) -> Step {
    let example = "`set total = total + price;`";
    let x = variable(r);
    r.c.expect_sign(b'=', example);
    let e = read_expression(r);
    r.c.expect_sign(b';', example);
    Step::Set(x, e)
}

// `show E;`
fn read_show(r: &mut Reader) -> Step {
    let e = read_expression(r);
    r.c.expect_sign(b';', "`;` after what is shown");
    Step::Show(e)
}

// The process that is started or become, by its name.
fn process(r: &mut Reader) -> u32 {
    if let Token::Unnamed(n) = r.c.token {
        r.c.advance();
        return n;
    }
    let name = r
        .c
        .name("a process", "`start till as t;` or `become till(t);`");
    match find(r.c.text, r.known.processes.as_slice(), name) {
        Some(p) => p,
        None => {
            r.c.unknown(
                "there is no process `",
                name,
                r.known.processes.as_slice(),
                "`: write `process` with this name, or another name here",
            );
            0
        }
    }
}

// `(C, C, ..)`, the conversations that are handed on; they are gone afterwards.
fn read_talks(r: &mut Reader, talks: &mut Vec<u32>) {
    if !r.c.passes_sign(b'(') || r.c.passes_sign(b')') {
        return;
    }
    for _ in 0..r.c.text.len() {
        r.count();
        let t = talk(r);
        keep(&mut r.c, talks, t);
        r.scope.move_to(t, None);
        if !r.c.passes_sign(b',') {
            break;
        }
    }
    r.c.expect_sign(b')', "`,` and another conversation, or `)`");
}

// `with E, E, ..`, the numbers that are handed on.
fn read_values(r: &mut Reader, values: &mut Vec<Expression>) {
    if !r.c.passes("with") {
        return;
    }
    for _ in 0..r.c.text.len() {
        let e = read_expression(r);
        keep(&mut r.c, values, e);
        if !r.c.passes_sign(b',') {
            return;
        }
    }
}

pub fn read_handed(r: &mut Reader) -> Handed {
    let process = process(r);
    let mut talks = Vec::new(r.c.heap);
    read_talks(r, &mut talks);
    let mut values = Vec::new(r.c.heap);
    read_values(r, &mut values);
    Handed {
        process,
        talks,
        values,
    }
}

// The name of a conversation that is new.
fn read_new_talk(r: &mut Reader, example: &str) -> Span {
    let name = r.c.name("the new conversation", example);
    if r.scope.talk(r.c.text, name).is_some() {
        r.c.wrong_name(
            "there is a conversation `",
            name,
            "` already: write another name after `as`",
        );
    }
    name
}

// `start P(C, ..) with E, .. as C;`: the new conversation is the last one, at the other side of the first of P.
fn read_start(r: &mut Reader) -> Step {
    let example = "`start till(gate) with 5 as t;`";
    let handed = read_handed(r);
    r.c.expect("as", example);
    let name = read_new_talk(r, example);
    r.c.expect_sign(b';', example);
    let at = r.known.facing(handed.process);
    keep(&mut r.c, &mut r.scope.talks, Talk { name, at });
    Step::Start(handed)
}

// An action after which another comes.
pub fn read_step(r: &mut Reader) -> Step {
    r.count();
    if r.c.passes("give") {
        return read_give(r);
    }
    if r.c.passes("take") {
        return read_take(r);
    }
    if r.c.passes("choose") {
        return read_choose(r);
    }
    if r.c.passes("set") {
        return read_set(r);
    }
    if r.c.passes("show") {
        return read_show(r);
    }
    if r.c.passes("start") {
        return read_start(r);
    }
    no_action(r);
    Step::Take(0, 0)
}

// A fault at what is no action.
pub fn no_action(r: &mut Reader) {
    let word = r.c.word();
    if r.c.says(word, "var") {
        r.c.wrong(
            "variables are named at the beginning of the process: move this line up, before the first action",
        );
    } else if r.c.is_sign(b'}') || r.c.is_end() {
        r.c.wrong(
            "what the process does ends here: write `stop;` or `become NAME(..);` before this",
        );
    } else if !word.is_empty() {
        r.c.wrong_name(
            "`",
            word,
            "` is no action: write `give`, `take`, `choose`, `offer`, `set`, `if`, `show`, `start`, `become` or `stop`; before the name of the next way, `stop;` or `become` ends this one",
        );
    } else {
        r.c.wrong(
            "an action is missing here: write `give`, `take`, `choose`, `offer`, `set`, `if`, `show`, `start`, `become` or `stop`",
        );
    }
}
