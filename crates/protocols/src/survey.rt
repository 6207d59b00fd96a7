// The first look at a text: which protocols and processes it has, and where each begins.
use tokens::{Cursor, Span, find, keep};

// The names of the protocols and of the processes, in the order of the text.
#[derive(Drop)]
pub struct Survey {
    pub protocols: Vec<Span>,
    pub processes: Vec<Span>,
}

// Whether the text ends here, or a protocol or process begins.
fn is_over(c: &Cursor) -> bool {
    c.is_end() || c.is_word("protocol") || c.is_word("process")
}

// Passes over the rest of a protocol or a process, to the `}` that ends it.
fn skip_block(c: &mut Cursor, name: Span) {
    let mut open = 0usize;
    for _ in 0..c.text.len() {
        if is_over(c) {
            break;
        }
        if c.passes_sign(b'{') {
            open = open.saturating_add(1);
        } else if c.passes_sign(b'}') {
            if open <= 1 {
                return;
            }
            open = open.saturating_sub(1);
        } else {
            c.advance();
        }
    }
    c.wrong_name(
        "`",
        name,
        "` does not end: for each `{` after it write a `}`",
    );
}

// A name, which is noted once, and what belongs to it; there may be `most` of them.
fn heading(c: &mut Cursor, known: &mut Vec<Span>, most: usize, what: &str, example: &str) {
    let name = c.name(what, example);
    if known.len() >= most {
        c.wrong_at(
            name.at,
            "this is one too many: a text has at most 64 processes and 128 protocols",
        );
    }
    if find(c.text, known.as_slice(), name).is_some() {
        c.wrong_name(
            "there are two of the name `",
            name,
            "`: write another name for one of them",
        );
    }
    keep(c, known, name);
    skip_block(c, name);
}

// Goes through the text from one protocol or process to the next.
pub fn look_over(c: &mut Cursor) -> Survey {
    let mut protocols = Vec::new(c.heap);
    let mut processes = Vec::new(c.heap);
    for _ in 0..c.text.len() {
        if c.is_end() {
            break;
        }
        if c.passes("protocol") {
            heading(
                c,
                &mut protocols,
                128,
                "a protocol",
                "`protocol Adding { take; take; give; end; }`",
            );
        } else if c.passes("process") {
            heading(
                c,
                &mut processes,
                64,
                "a process",
                "`process till(t: Adding) { .. }`",
            );
        } else {
            c.wrong(
                "here a protocol or a process begins: write `protocol NAME { .. }` or `process NAME(..) { .. }`; each block that was opened is closed already",
            );
        }
    }
    if !c.is_end() {
        c.wrong("this text does not end");
    }
    Survey {
        protocols,
        processes,
    }
}
