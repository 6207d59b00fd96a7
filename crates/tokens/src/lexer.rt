// A text cut into words, numbers and signs. Blanks and comments, from `#` to the end of the line, separate them.
use crate::span::{Span, part};

#[derive(Clone, Copy)]
pub enum Token {
    // A name, or a verb of the language.
    Word,
    Number(u32),
    // `?` and a number: something by its number, which has no name.
    Unnamed(u32),
    // One of `{ } ( ) : ; , = + - * <`.
    Sign(u8),
    // What begins with a digit, or with `?`, and is no number.
    NoNumber,
    NoUnnamed,
    // A byte that no token begins with.
    Stray(u8),
    // The end of the text.
    End,
}

// A token, where it begins, and where the text goes on after it.
#[derive(Clone, Copy)]
pub struct Spotted {
    pub token: Token,
    pub at: usize,
    pub end: usize,
}

fn is_blank(b: u8) -> bool {
    b == b' ' || b == b'\t' || b == b'\r' || b == b'\n'
}

fn is_name_byte(b: u8) -> bool {
    b.is_ascii_alphanumeric() || b == b'_'
}

fn is_sign(b: u8) -> bool {
    b"{}():;,=+-*<".contains(&b)
}

// Where the next token begins, or the end of the text.
fn skip_blank(bytes: &[u8], from: usize) -> usize {
    let mut in_comment = false;
    for i in from..bytes.len() {
        let b = bytes[i];
        if in_comment {
            in_comment = b != b'\n';
        } else if b == b'#' {
            in_comment = true;
        } else if !is_blank(b) {
            return i;
        }
    }
    bytes.len()
}

// Where the letters, digits and underscores that begin here end.
fn word_end(bytes: &[u8], from: usize) -> usize {
    for i in from..bytes.len() {
        if !is_name_byte(bytes[i]) {
            return i;
        }
    }
    bytes.len()
}

fn number(digits: &str) -> Option<u32> {
    match digits.parse::<u32>() {
        Ok(n) => Some(n),
        Err(_) => None,
    }
}

// The token of a word or a number.
fn word_token(word: &str, first: u8) -> Token {
    if !first.is_ascii_digit() {
        return Token::Word;
    }
    match number(word) {
        Some(n) => Token::Number(n),
        None => Token::NoNumber,
    }
}

// The token of the digits after a `?`.
fn unnamed_token(digits: &str) -> Token {
    match number(digits) {
        Some(n) => Token::Unnamed(n),
        None => Token::NoUnnamed,
    }
}

// The token that begins at a byte, which is no blank.
fn token_at(text: &str, at: usize, first: u8) -> Spotted {
    let after = at.saturating_add(1);
    if is_name_byte(first) {
        let end = word_end(text.as_bytes(), at);
        let token = word_token(part(text, Span { at, end }), first);
        return Spotted { token, at, end };
    }
    if first == b'?' {
        let end = word_end(text.as_bytes(), after);
        let token = unnamed_token(part(text, Span { at: after, end }));
        return Spotted { token, at, end };
    }
    let token = if is_sign(first) {
        Token::Sign(first)
    } else {
        Token::Stray(first)
    };
    Spotted {
        token,
        at,
        end: after,
    }
}

// The token at or after a byte.
pub fn read_token(text: &str, from: usize) -> Spotted {
    let bytes = text.as_bytes();
    let at = skip_blank(bytes, from);
    match bytes.get(at).copied() {
        Some(first) => token_at(text, at, first),
        None => Spotted {
            token: Token::End,
            at,
            end: at,
        },
    }
}

// A sign as text.
pub fn sign_text(sign: u8) -> &'static str {
    match sign {
        b'{' => "{",
        b'}' => "}",
        b'(' => "(",
        b')' => ")",
        b':' => ":",
        b';' => ";",
        b'=' => "=",
        _ => ",",
    }
}

// What is said of a byte that no token begins with.
pub fn stray_says(b: u8) -> &'static str {
    match b {
        b'>' => "there is no `>`: write `b < a` for `a > b`",
        b'/' => "there is no `/`; a comment begins with `#`",
        b'!' => "there is no `!`: write `a < 1` for `not a`",
        b'"' => "there is no text in quotes: processes give and show numbers only",
        b'&' => "there is no `&`: write one `if` inside another",
        b'|' => "there is no `|`: write each way as its name, `:` and what is done",
        b'.' => "there is no `.`: numbers are whole, and names have letters, digits and `_`",
        _ =>
            "this sign has no meaning here: names have letters without accents, digits and `_`, and a comment begins with `#`",
    }
}
