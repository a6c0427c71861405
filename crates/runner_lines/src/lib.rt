// The text of a line: each call writes bytes from a place on and answers where the next byte goes.
#![tactic(auto)]

ghost use Rattle.std.specs.Prelude.{◌≡◌, [], ◌∷◌, ◌++◌, ◌+◌, ◌<◌, ◌≤◌, length};
ghost use Rattle.paper.specs.Runner.{decimal, space, line};
ghost use Rattle.writes.specs.Written.{written};
ghost use Rattle.runner_lines.specs.Lines.{most_line, most_end, answer_text, refusal_text};

use numbers::{kind_of, task_of};
use paper::{Answer, Refusal};

// A number is written in base ten, from the byte of the digit 0 on.
const TEN: u64 = 10;

const ZERO: u8 = 48;

// The most bytes of a line.
pub const MOST_LINE: usize = 32;

const SPACE: u8 = 32;

const NEWLINE: u8 = 10;

// Writes one byte.
fn put_byte(out: &mut [u8], at: usize, b: u8) -> usize
    requires { at < length out.old }
    ensures value { result ≡ at + 1 }
    ensures out_after { out.new ≡ written out.old at (b ∷ []) }
{
    out[at] = b;
    at + 1
}

// Writes the decimal digits of a number. By hand, since the clause names the paper's `decimal`, and a line has a fixed room.
pub fn put_decimal(out: &mut [u8], at: usize, n: u64) -> usize
    requires { at + length (decimal n) ≤ length out.old }
    ensures value { result ≡ at + length (decimal n) }
    ensures out_after { out.new ≡ written out.old at (decimal n) }
{
    if n < TEN {
        return put_byte(out, at, ZERO + n as u8);
    }
    let last = put_decimal(out, at, n / TEN);
    put_byte(out, last, ZERO + (n % TEN) as u8)
}

// Writes a text.
pub fn put_text(out: &mut [u8], at: usize, text: &[u8]) -> usize
    requires { at + length text.now ≤ length out.old }
    ensures value { result ≡ at + length text.now }
    ensures out_after { out.new ≡ written out.old at text.now }
{
    let end = at + text.len();
    out[at..end].copy_from_slice(text);
    end
}

// Writes a space and the decimal digits of a number.
fn put_field(out: &mut [u8], at: usize, n: u16) -> usize
    requires { at + length (space ++ decimal n) ≤ length out.old }
    ensures value { result ≡ at + length (space ++ decimal n) }
    ensures out_after { out.new ≡ written out.old at (space ++ decimal n) }
{
    let digits = put_byte(out, at, SPACE);
    put_decimal(out, digits, n as u64)
}

// Writes kind and task after an event's number, and ends the line.
fn put_answer(out: &mut [u8], at: usize, a: Answer) -> usize
    requires { at + most_end ≤ length out.old }
    ensures value { result ≡ at + length (answer_text a) }
    ensures upper_bound { result ≤ at + most_end }
    ensures out_after { out.new ≡ written out.old at (answer_text a) }
{
    let kind = kind_of(a);
    let task = task_of(a);
    let next = put_field(out, at, kind);
    let end = put_field(out, next, task);
    put_byte(out, end, NEWLINE)
}

// Writes `refused` and the number after an event's number, and ends the line.
fn put_refusal(out: &mut [u8], at: usize, r: Refusal) -> usize
    requires { at + most_end ≤ length out.old }
    ensures value { result ≡ at + length (refusal_text r) }
    ensures upper_bound { result ≤ at + most_end }
    ensures out_after { out.new ≡ written out.old at (refusal_text r) }
{
    let number = put_text(out, at, b" refused");
    let end = put_field(out, number, u16::from(r));
    put_byte(out, end, NEWLINE)
}

// Writes a line: an event's number, then kind and task, or `refused` and the number.
pub fn put_line(out: &mut [u8], at: usize, n: u64, reply: Result<Answer, Refusal>) -> usize
    requires { at + most_line ≤ length out.old }
    ensures value { result ≡ at + length (line n reply) }
    ensures upper_bound { result ≤ at + most_line }
    ensures out_after { out.new ≡ written out.old at (line n reply) }
{
    let next = put_decimal(out, at, n);
    match reply {
        Ok(a) => put_answer(out, next, a),
        Err(r) => put_refusal(out, next, r),
    }
}
