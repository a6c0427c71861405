// Why a line is outside the grammar: its first token that no line goes on with.
#![tactic(auto)]

ghost use Rattle.std.specs.Prelude.{List, ℕ, length};
ghost use Rattle.tokens.specs.Shown.{shown, Inside};
ghost use Rattle.outside.specs.Reasons.{Fits, left, Steps, StepsTo, OperandFits};

use grammar::{DEEPEST, Kept, Operands};
use kept::kept;
use tokens::{CLOSE, EQUALS, LABEL, MINUS, OPEN, PLUS, TIMES, Token, mark_of, next_token};

// Why a line is refused. A word is told by its first byte in the line and the place after it.
#[derive(Clone, Copy)]
pub enum Reason {
    NinthBracket,
    TooManyNames,
    KeptWord(usize, usize),
    LaterOrder(usize, usize),
    StrayByte,
    Other,
    GivenTwice(usize, usize),
    NotGiven(usize, usize),
    OutOfRange,
    NoRoom,
}

// How a line goes on after a token of a sum: at a place, with so many brackets open, and a term wanted there or not.
#[derive(Clone, Copy)]
struct Going {
    at: usize,
    depth: usize,
    wanted: bool,
}

// A token that no line goes on with.
fn unfit(t: Token) -> Reason
    ensures { (l : List ℕ) → Fits l result }
{
    match t {
        Token::Stray(_) => Reason::StrayByte,
        _ => Reason::Other,
    }
}

// A mark where a term is wanted.
fn mark_step(b: u8, to: usize, depth: usize) -> Result<Going, Reason>
    ensures { StepsTo to result }
{
    if b != OPEN {
        return Err(Reason::Other);
    }
    if depth < DEEPEST {
        return Ok(Going {
            at: to,
            depth: depth + 1,
            wanted: true,
        });
    }
    Err(Reason::NinthBracket)
}

// A token where a term is wanted.
fn term_step(line: &[u8], t: Token, depth: usize) -> Result<Going, Reason>
    requires { Inside line.now t }
    ensures { Steps line.now (length (shown line.now t)) result }
{
    match t {
        Token::Number(_, at) => Ok(Going {
            at,
            depth,
            wanted: false,
        }),
        Token::Word(from, at) => {
            let Kept::Free = kept(&line[from..at]) else {
                return Err(Reason::KeptWord(from, at));
            };
            Ok(Going {
                at,
                depth,
                wanted: false,
            })
        }
        Token::Mark(b, to) => mark_step(b, to, depth),
        _ => Err(unfit(t)),
    }
}

// A mark after a term.
fn sign_step(b: u8, to: usize, depth: usize) -> Result<Going, Reason>
    ensures { StepsTo to result }
{
    match b {
        PLUS | MINUS | TIMES => Ok(Going {
            at: to,
            depth,
            wanted: true,
        }),
        CLOSE if 0 < depth => Ok(Going {
            at: to,
            depth: depth - 1,
            wanted: false,
        }),
        _ => Err(Reason::Other),
    }
}

// A token after a term; a line that is one of the grammar to its end can only give a name too many.
fn next_step(t: Token, depth: usize) -> Result<Going, Reason>
    ensures { (l : List ℕ) → Steps l (length (shown l t)) result }
{
    match t {
        Token::End if depth == 0 => Err(Reason::TooManyNames),
        Token::Mark(b, to) => sign_step(b, to, depth),
        _ => Err(unfit(t)),
    }
}

// A token of a sum.
fn sum_step(line: &[u8], now: Going) -> Result<Going, Reason>
    ensures { Steps line.now (left line.now now.at) result }
{
    let t = next_token(line, now.at);
    if now.wanted {
        return term_step(line, t, now.depth);
    }
    next_step(t, now.depth)
}

// Why a line is outside the grammar whose sum begins at a place.
fn sum_reason(line: &[u8], at: usize) -> Reason
    ensures { Fits line.now result }
{
    let mut now = Going {
        at,
        depth: 0,
        wanted: true,
    };
    loop {
        match sum_step(line, now) {
            Ok(next) => now = next,
            Err(r) => return r,
        }
    }
}

// A register, from a place on, and the place after it.
fn register(line: &[u8], at: usize) -> Result<usize, Reason>
    ensures { OperandFits line.now result }
{
    let t = next_token(line, at);
    let Token::Word(from, to) = t else {
        return Err(unfit(t));
    };
    let Kept::Register(_) = kept(&line[from..to]) else {
        return Err(Reason::Other);
    };
    Ok(to)
}

// Why a line is outside the grammar that is to end at a place.
fn end_reason(line: &[u8], at: usize) -> Reason
    ensures { Fits line.now result }
{
    match next_token(line, at) {
        Token::End => Reason::TooManyNames,
        t => unfit(t),
    }
}

// Why a line is outside the grammar whose last register is to stand at a place.
fn last_reason(line: &[u8], at: usize) -> Reason
    ensures { Fits line.now result }
{
    match register(line, at) {
        Ok(to) => end_reason(line, to),
        Err(r) => r,
    }
}

// Why a line is outside the grammar whose order has its operands at a place.
fn order_reason(line: &[u8], at: usize, operands: Operands) -> Reason
    ensures { Fits line.now result }
{
    match operands {
        Operands::Nothing => end_reason(line, at),
        Operands::Sum => sum_reason(line, at),
        Operands::RegisterSum => match register(line, at) {
            Ok(to) => sum_reason(line, to),
            Err(r) => r,
        },
        Operands::Registers => match register(line, at) {
            Ok(to) => last_reason(line, to),
            Err(r) => r,
        },
    }
}

// Why a line of the script is outside the grammar whose order or sum begins at a place.
fn body_reason(line: &[u8], at: usize) -> Reason
    ensures { Fits line.now result }
{
    match next_token(line, at) {
        Token::End => Reason::TooManyNames,
        Token::Number(_, _) | Token::Mark(_, _) => sum_reason(line, at),
        Token::Word(from, to) => match kept(&line[from..to]) {
            Kept::Free => sum_reason(line, at),
            Kept::Register(_) => Reason::KeptWord(from, to),
            Kept::Order(operands, _) => order_reason(line, to, operands),
            Kept::Later => Reason::LaterOrder(from, to),
        },
        Token::Stray(_) => Reason::StrayByte,
    }
}

// Why a line of the script is outside the grammar; one that is of the grammar can only give a label too many.
pub fn script_reason(line: &[u8]) -> Reason
    ensures { Fits line.now result }
{
    let Token::Word(from, to) = next_token(line, 0) else {
        return body_reason(line, 0);
    };
    let Some(after) = mark_of(next_token(line, to), LABEL) else {
        return body_reason(line, 0);
    };
    let Kept::Free = kept(&line[from..to]) else {
        return Reason::KeptWord(from, to);
    };
    body_reason(line, after)
}

// Why a line of the names is outside the grammar; one that is of the grammar can only give a name too many.
pub fn names_reason(line: &[u8]) -> Reason
    ensures { Fits line.now result }
{
    let first = next_token(line, 0);
    let Token::Word(from, to) = first else {
        return unfit(first);
    };
    let Kept::Free = kept(&line[from..to]) else {
        return Reason::KeptWord(from, to);
    };
    let second = next_token(line, to);
    let Some(after) = mark_of(second, EQUALS) else {
        return unfit(second);
    };
    sum_reason(line, after)
}
