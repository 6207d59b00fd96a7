// Expressions: `+`, `-`, `*`, `<` and parentheses, read with the usual precedence by two stacks.
use crate::reader::Reader;
use std::alloc::{AllocError, Global};
use syntax::Expression;
use tokens::{Cursor, Token, find, keep};

// An operator, or a parenthesis that is open.
#[derive(Clone, Copy)]
enum Sign {
    Open,
    Less,
    Add,
    Sub,
    Mul,
}

// The signs and the values that are not joined yet.
#[derive(Drop)]
struct Stacks {
    signs: Vec<Sign>,
    values: Vec<Expression>,
}

// How tightly a sign binds; a parenthesis is bound by nothing.
fn tightness(s: Sign) -> u8 {
    match s {
        Sign::Open => 0,
        Sign::Less => 1,
        Sign::Add => 2,
        Sign::Sub => 2,
        Sign::Mul => 3,
    }
}

fn operator(token: Token) -> Option<Sign> {
    match token {
        Token::Sign(b'<') => Some(Sign::Less),
        Token::Sign(b'+') => Some(Sign::Add),
        Token::Sign(b'-') => Some(Sign::Sub),
        Token::Sign(b'*') => Some(Sign::Mul),
        _ => None,
    }
}

// The expression of a sign and its two sides.
fn join(heap: Global, sign: Sign, a: Expression, b: Expression) -> Result<Expression, AllocError> {
    let a = Box::new(heap, a)?;
    let b = Box::new(heap, b)?;
    Ok(match sign {
        Sign::Open => Expression::Add(a, b),
        Sign::Less => Expression::Less(a, b),
        Sign::Add => Expression::Add(a, b),
        Sign::Sub => Expression::Sub(a, b),
        Sign::Mul => Expression::Mul(a, b),
    })
}

// Joins the last two values by a sign.
fn join_last(c: &mut Cursor, values: &mut Vec<Expression>, sign: Sign) {
    if let Some(b) = values.pop() {
        if let Some(a) = values.pop() {
            match join(c.heap, sign, a, b) {
                Ok(e) => keep(c, values, e),
                Err(_) => c.out_of_memory(),
            }
        }
    }
}

// Joins the last two values by the signs that bind at least so tightly.
fn reduce(c: &mut Cursor, s: &mut Stacks, least: u8) {
    while let Some(sign) = s.signs.pop() {
        if tightness(sign) < least {
            keep(c, &mut s.signs, sign);
            return;
        }
        join_last(c, &mut s.values, sign);
    }
}

// The number of a variable by its name.
pub fn variable(r: &mut Reader) -> u32 {
    if let Token::Unnamed(n) = r.c.token {
        r.c.advance();
        return n;
    }
    let name = r.c.name(
        "a variable",
        "`take plate from gate;` or `set total = total + 1;`",
    );
    match find(r.c.text, r.scope.vars.as_slice(), name) {
        Some(x) => x,
        None => {
            r.c.unknown(
                "there is no variable `",
                name,
                r.scope.vars.as_slice(),
                "`: write `var` with this name at the beginning of the process",
            );
            0
        }
    }
}

// A number or a variable.
fn operand(r: &mut Reader) -> Expression {
    r.count();
    match r.c.token {
        Token::Number(n) => {
            r.c.advance();
            Expression::Num(n)
        }
        Token::Word => Expression::Var(variable(r)),
        Token::Unnamed(_) => Expression::Var(variable(r)),
        _ => {
            r.c.wrong("a number, a variable or `(` is missing here");
            Expression::Num(0)
        }
    }
}

// Passes over the parentheses that open here.
fn open(r: &mut Reader, s: &mut Stacks) {
    for _ in 0..r.c.text.len() {
        if !r.c.passes_sign(b'(') {
            return;
        }
        r.count();
        keep(&mut r.c, &mut s.signs, Sign::Open);
    }
}

// Passes over the parentheses that close here, as many as are open.
fn close(c: &mut Cursor, s: &mut Stacks) {
    for _ in 0..c.text.len() {
        if !c.is_sign(b')') {
            return;
        }
        reduce(c, s, 1);
        if s.signs.pop().is_none() {
            return;
        }
        c.advance();
    }
}

// Operands with operators between them, to the first token that is no part of them.
fn read_terms(r: &mut Reader, s: &mut Stacks) {
    for _ in 0..r.c.text.len() {
        open(r, s);
        let value = operand(r);
        keep(&mut r.c, &mut s.values, value);
        close(&mut r.c, s);
        let Some(sign) = operator(r.c.token) else {
            return;
        };
        r.count();
        r.c.advance();
        reduce(&mut r.c, s, tightness(sign));
        keep(&mut r.c, &mut s.signs, sign);
    }
}

// An expression, to the first token that is no part of it.
pub fn read_expression(r: &mut Reader) -> Expression {
    let mut s = Stacks {
        signs: Vec::new(r.c.heap),
        values: Vec::new(r.c.heap),
    };
    read_terms(r, &mut s);
    reduce(&mut r.c, &mut s, 1);
    if !s.signs.is_empty() {
        let ended = r.c.ended;
        r.c.wrong_at(ended, "`)` is missing here");
    }
    match s.values.pop() {
        Some(e) => e,
        None => {
            r.c.wrong("a number, a variable or `(` is missing here");
            Expression::Num(0)
        }
    }
}
