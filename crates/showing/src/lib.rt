// What is said of a task of an image, as comments of a script, and the task's segment as its text.
#![tactic(auto)]

mod zeros;

ghost use Rattle.std.specs.Prelude.{◌≡◌, ◌<◌, ◌≤◌, length, take};
ghost use Rattle.grammar.specs.Printing.{printed, most_printed};
ghost use Rattle.laws.specs.Sound.{Sound};
ghost use Rattle.showing.specs.Zeros.{text_bytes};

use disk::blank;
use paper::{BASE, FLAGS, LENGTH, NEXT_ORDER, Shape, Task};
use printing::print;
use results::error_of;
use saying::Status;
use std::io;
use std::io::Write;
use words::{Spot, entry, get, own, row_of};
use zeros::{ZERO_LINE, zero_lines};

// The bytes that the text of the longest segment needs at most: 16 for each word.
pub const TEXT_BYTES: usize = 523440;

// The line that names a task, with its status and where its R0 stands.
fn put_task<W: Write>(out: &mut W, s: Shape, im: &[u16], t: Task) -> io::Result<()>
    requires sound { Sound s im.now }
    requires t_lt_n { t.0 < s.n }
{
    let row = row_of(s, t);
    let status = Status {
        status: get(s, im, Spot::Status(t)),
        peer: get(s, im, Spot::Peer(t)),
        error: error_of(own(s, im, row, FLAGS)),
    };
    let address = own(s, im, row, NEXT_ORDER);
    write!(out, "; task {}: {status}, R0 = {address}", t.0)?;
    if address < entry(s, im, t, LENGTH) {
        return writeln!(out);
    }
    writeln!(out, ", outside the segment")
}

// Prints a segment, and answers how many bytes its text has. No segment is refused.
fn print_segment(words: &[u16], text: &mut [u8; TEXT_BYTES]) -> usize
    requires words_len_bound { length words.now ≤ most_printed }
    requires text_len { length text.old ≡ text_bytes }
    ensures { (result ≤ length text.new) × (take result text.new ≡ printed words.now) }
{
    match print(words, text) {
        Ok(bytes) => bytes,
        Err(_) => 0,
    }
}

// The text of a segment without the lines `0` that end it, and how many these are, if there are any.
fn put_segment<W: Write>(out: &mut W, words: &[u16]) -> io::Result<()>
    requires { length words.now ≤ most_printed }
{
    let mut text = blank::<u8, TEXT_BYTES>(0);
    let bytes = print_segment(words, &mut text);
    let lines = zero_lines(&text[..bytes]);
    out.write_all(&text[..bytes - ZERO_LINE * lines])?;
    if lines == 0 {
        return Ok(());
    }
    writeln!(out, "; lines 0 left out: {lines}")
}

// A task: its line and its segment.
pub fn show_task<W: Write>(out: &mut W, s: Shape, im: &[u16], t: Task) -> io::Result<()>
    requires sound { Sound s im.now }
    requires t_lt_n { t.0 < s.n }
{
    put_task(out, s, im, t)?;
    let from = entry(s, im, t, BASE) as usize;
    let to = from + entry(s, im, t, LENGTH) as usize;
    put_segment(out, &im[from..to])
}
