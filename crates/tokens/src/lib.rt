// The tokens of a line, found one at a time from a place on.
#![tactic(auto)]

ghost use Rattle.std.specs.Prelude.{◌≡◌, ◌≤◌, length, drop};
ghost use Rattle.grammar.specs.Tokens.{blank, is_mark, word_byte, tokens};
ghost use Rattle.tokens.specs.Shown.{shown, Inside, marks, is_end, EndsAt};

// What stands next in a line: nothing more, a number or a word with its first byte and the place after it, a mark, or a byte
// that never stands there, each with the place after it.
#[derive(Clone, Copy)]
pub enum Token {
    End,
    Number(usize, usize),
    Word(usize, usize),
    Mark(u8, usize),
    Stray(usize),
}

const COMMENT: u8 = b';';

// The marks.
pub const PLUS: u8 = b'+';

pub const MINUS: u8 = b'-';

pub const TIMES: u8 = b'*';

pub const OPEN: u8 = b'(';

pub const CLOSE: u8 = b')';

pub const LABEL: u8 = b':';

pub const EQUALS: u8 = b'=';

// Whether a byte is a blank.
fn is_blank(b: u8) -> bool
    ensures { result ≡ blank b }
{
    matches!(b, b' ' | b'\t' | b'\r')
}

// Whether a word goes on with a byte: a letter, which is asked for first since most are, a digit or an underscore.
fn is_word_byte(b: u8) -> bool
    ensures { result ≡ word_byte b }
{
    if !b.is_ascii_lowercase() {
        return b.is_ascii_digit() || b == b'_';
    }
    true
}

// Whether a byte is a mark.
fn is_a_mark(b: u8) -> bool
    ensures { result ≡ is_mark b }
{
    matches!(b, PLUS | MINUS | TIMES | OPEN | CLOSE | LABEL | EQUALS)
}

// The first place from one on where a byte is not taken, or the end.
fn end_of<F: Fn(u8) -> bool>(line: &[u8], at: usize, taken: F) -> usize
    requires { F.IsAlwaysCallable taken }
    ensures { EndsAt (λ b r. F.post taken b r) line.now at result }
{
    for k in at..line.len() {
        if !taken(line[k]) {
            return k;
        }
    }
    line.len()
}

// The token that stands next.
pub fn next_token(line: &[u8], at: usize) -> Token
    ensures line_value { tokens (drop at line.now) ≡ shown line.now result }
    ensures inside { Inside line.now result }
{
    let from = end_of(line, at, is_blank);
    let Some(&b) = line.get(from) else {
        return Token::End;
    };
    if b.is_ascii_lowercase() {
        return Token::Word(from, end_of(line, from + 1, is_word_byte));
    }
    if b.is_ascii_digit() {
        return Token::Number(from, end_of(line, from + 1, |d| d.is_ascii_digit()));
    }
    if is_a_mark(b) {
        return Token::Mark(b, from + 1);
    }
    if b == COMMENT {
        return Token::End;
    }
    Token::Stray(from + 1)
}

// The place after a token that is the mark b.
pub fn mark_of(t: Token, b: u8) -> Option<usize>
    ensures { result ≡ marks b t }
{
    match t {
        Token::Mark(c, to) if c == b => Some(to),
        _ => None,
    }
}

// Whether no token is left.
pub fn ends(t: Token) -> bool
    ensures { result ≡ is_end t }
{
    matches!(t, Token::End)
}
