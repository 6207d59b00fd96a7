// Names: finding one in a list, the words that no name may be, and a guess at what a misspelt name was meant to be.
use crate::span::{Span, part};

// The two ways' names of a point, which are empty where it has none.
#[derive(Clone, Copy)]
pub struct Ways {
    pub first: Span,
    pub second: Span,
}

// The words of the language, which nothing may be named.
const VERBS: [&str; 23] = [
    "protocol", "process", "var", "give", "take", "choose", "offer", "set", "if", "else", "show",
    "start", "become", "stop", "as", "to", "from", "in", "with", "other", "again", "then", "end",
];

pub fn is_verb(word: &str) -> bool {
    for verb in VERBS.iter() {
        if *verb == word {
            return true;
        }
    }
    false
}

// The number of a name in a list.
pub fn find(text: &str, names: &[Span], name: Span) -> Option<u32> {
    let word = part(text, name);
    let mut i = 0u32;
    for known in names {
        if part(text, *known) == word {
            return Some(i);
        }
        i = i.saturating_add(1);
    }
    None
}

// How many bytes two words have in common at their front.
fn same_front(a: &[u8], b: &[u8]) -> usize {
    let most = a.len().min(b.len());
    for i in 0..most {
        if !a[i].eq_ignore_ascii_case(&b[i]) {
            return i;
        }
    }
    most
}

fn same_back(a: &[u8], b: &[u8]) -> usize {
    let most = a.len().min(b.len());
    for i in 0..most {
        if !a[a.len() - 1 - i].eq_ignore_ascii_case(&b[b.len() - 1 - i]) {
            return i;
        }
    }
    most
}

// Whether one word may be a misspelling of the other: they differ in one or two letters at one place.
pub fn is_close(a: &str, b: &str) -> bool {
    let (a, b) = (a.as_bytes(), b.as_bytes());
    let longest = a.len().max(b.len());
    let shorter = a.len().min(b.len());
    let same = same_front(a, b).saturating_add(same_back(a, b));
    same > 0 && longest.saturating_sub(same) <= 2 && longest.saturating_sub(shorter) <= 2
}

// A name of the list that is close to a word that is not in it.
pub fn guess(text: &str, names: &[Span], word: Span) -> Option<Span> {
    for name in names {
        if is_close(part(text, *name), part(text, word)) {
            return Some(*name);
        }
    }
    None
}
