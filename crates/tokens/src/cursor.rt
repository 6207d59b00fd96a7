// A place in a text that is being read: the token there, and what is asked of it.
//
// What is wrong is noted in the cursor, and only the first fault counts. From then on the cursor stands at the end
// of the text, so that whoever reads on finds nothing and returns; what it returns is let go.
use crate::fault::{Fault, wrong, wrong_parts};
use crate::lexer::{Token, read_token, sign_text, stray_says};
use crate::names::{Ways, guess, is_verb};
use crate::span::{Span, part};
use std::alloc::Global;

#[derive(Drop)]
pub struct Cursor<'a> {
    pub heap: Global,
    pub text: &'a str,
    pub token: Token,
    // Where the token begins, where the one before it ended, and where the next is looked for.
    pub at: usize,
    pub ended: usize,
    pub next: usize,
    // The first fault.
    pub fault: Option<Fault>,
}

impl<'a> Cursor<'a> {
    // At the first token of a text.
    pub fn new(heap: Global, text: &'a str) -> Cursor<'a> {
        let mut c = Cursor {
            heap,
            text,
            token: Token::End,
            at: 0,
            ended: 0,
            next: 0,
            fault: None,
        };
        c.look_from(0);
        c
    }

    // Notes a fault, if it is the first, and goes to the end of the text.
    pub fn note(&mut self, fault: Fault) {
        if self.fault.is_none() {
            self.fault = Some(fault);
        }
        self.token = Token::End;
        self.next = self.text.len();
    }

    // A fault at a byte.
    pub fn wrong_at(&mut self, at: usize, says: &str) {
        self.note(wrong(self.heap, at, says));
    }

    // A fault at the token here.
    pub fn wrong(&mut self, says: &str) {
        self.wrong_at(self.at, says);
    }

    // A fault that names something.
    pub fn wrong_name(&mut self, before: &str, name: Span, after: &str) {
        self.note(wrong_parts(
            self.heap,
            name.at,
            before,
            part(self.text, name),
            after,
            "",
            "",
            "",
            "",
        ));
    }

    // A fault at a name that neither way has.
    pub fn wrong_way(&mut self, name: Span, ways: Ways) {
        let word = part(self.text, name);
        let first = part(self.text, ways.first);
        let second = part(self.text, ways.second);
        let before = "the conversation has no way `";
        self.note(wrong_parts(
            self.heap,
            name.at,
            before,
            word,
            "` here: write `",
            first,
            "` or `",
            second,
            "`",
        ));
    }

    pub fn out_of_memory(&mut self) {
        self.note(Fault::Memory);
    }

    // The fault that was noted, if any.
    pub fn faultless(&mut self) -> Result<(), Fault> {
        match self.fault.take() {
            Some(fault) => Err(fault),
            None => Ok(()),
        }
    }

    // The token at or after a byte.
    fn look_from(&mut self, from: usize) {
        let found = read_token(self.text, from);
        self.token = found.token;
        self.at = found.at;
        self.next = found.end;
        match found.token {
            Token::NoNumber => self.wrong_number(found.at, found.end),
            Token::NoUnnamed => self.wrong_number(found.at.saturating_add(1), found.end),
            Token::Stray(b) => self.wrong(stray_says(b)),
            _ => {}
        }
    }

    // A fault at digits that are no number.
    fn wrong_number(&mut self, at: usize, end: usize) {
        let digits = part(self.text, Span { at, end });
        let after =
            "` is no number: write one from 0 to 4294967295, or a name that begins with a letter";
        self.note(wrong_parts(self.heap, self.at, "`", digits, after, "", "", "", ""));
    }

    // Goes to the token that begins at a byte where one began before; after a fault it stays.
    pub fn go_to(&mut self, at: usize) {
        if self.fault.is_none() {
            self.look_from(at);
            self.ended = at;
        }
    }

    pub fn advance(&mut self) {
        let ended = self.next;
        self.look_from(ended);
        self.ended = ended;
    }

    pub fn is_sign(&self, sign: u8) -> bool {
        match self.token {
            Token::Sign(s) => s == sign,
            _ => false,
        }
    }

    pub fn is_end(&self) -> bool {
        match self.token {
            Token::End => true,
            _ => false,
        }
    }

    // The word here, or nothing.
    pub fn word(&self) -> Span {
        match self.token {
            Token::Word => Span {
                at: self.at,
                end: self.next,
            },
            _ => Span::none(),
        }
    }

    // Whether this word stands here.
    pub fn is_word(&self, word: &str) -> bool {
        part(self.text, self.word()) == word
    }

    // Whether a name is this word.
    pub fn says(&self, name: Span, word: &str) -> bool {
        part(self.text, name) == word
    }

    // Whether two names are the same.
    pub fn same(&self, a: Span, b: Span) -> bool {
        part(self.text, a) == part(self.text, b)
    }

    // Passes over a word if it stands here, and says whether it did.
    pub fn passes(&mut self, word: &str) -> bool {
        let here = self.is_word(word);
        if here {
            self.advance();
        }
        here
    }

    pub fn passes_sign(&mut self, sign: u8) -> bool {
        let here = self.is_sign(sign);
        if here {
            self.advance();
        }
        here
    }

    // Passes over a word that has to stand here; `example` shows how the whole is written.
    pub fn expect(&mut self, word: &str, example: &str) {
        if !self.passes(word) {
            self.note(wrong_parts(
                self.heap,
                self.at,
                "`",
                word,
                "` is missing here: write ",
                example,
                "",
                "",
                "",
            ));
        }
    }

    // Passes over a sign that has to stand here.
    pub fn expect_sign(&mut self, sign: u8, example: &str) {
        if !self.passes_sign(sign) {
            let shown = sign_text(sign);
            self.note(wrong_parts(
                self.heap,
                self.ended,
                "`",
                shown,
                "` is missing here: write ",
                example,
                "",
                "",
                "",
            ));
        }
    }

    // Passes over a name that is being given or used.
    pub fn name(&mut self, what: &str, example: &str) -> Span {
        let name = self.word();
        if name.is_empty() {
            self.note(wrong_parts(
                self.heap,
                self.at,
                "the name of ",
                what,
                " is missing here: write ",
                example,
                "",
                "",
                "",
            ));
        } else if is_verb(part(self.text, name)) {
            self.wrong_verb(name, what, example);
        } else {
            self.advance();
        }
        name
    }

    fn wrong_verb(&mut self, name: Span, what: &str, example: &str) {
        let between = "` is a word of the language and cannot be the name of ";
        let word = part(self.text, name);
        self.note(wrong_parts(
            self.heap,
            name.at,
            "`",
            word,
            between,
            what,
            ": write another name, as in ",
            example,
            "",
        ));
    }

    // A fault at a name that nothing has; `none` says so up to the name.
    pub fn unknown(&mut self, none: &str, name: Span, known: &[Span], remedy: &str) {
        match guess(self.text, known, name) {
            Some(near) => self.unknown_near(none, name, near),
            None => self.wrong_name(none, name, remedy),
        }
    }

    // A fault at a name that nothing has, but one that is close to it.
    pub fn unknown_near(&mut self, none: &str, name: Span, near: Span) {
        let word = part(self.text, name);
        let meant = part(self.text, near);
        self.note(wrong_parts(
            self.heap,
            name.at,
            none,
            word,
            "`: did you mean `",
            meant,
            "`?",
            "",
            "",
        ));
    }
}

// Puts one item more into a list.
pub fn keep<T: Drop>(c: &mut Cursor, list: &mut Vec<T>, item: T) {
    match list.push(item) {
        Ok(()) => {}
        Err(_) => c.out_of_memory(),
    }
}
