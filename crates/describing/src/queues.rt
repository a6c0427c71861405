// What the queues of an image hold, in words.
use paper::MOST_CAPACITY;
use std::io;
use std::io::Write;
use views::{INPUT_BUFFER, OUTPUT_BUFFER, queue_word};

// The characters that can be printed: from the blank to the tilde.
const FIRST_PRINTABLE: u16 = 32;

const LAST_PRINTABLE: u16 = 126;

// No queue holds more: a buffer at most this, and the ready queue less.
const MOST_HELD: u16 = MOST_CAPACITY as u16;

// A character: its number, and itself in quotes where it can be printed; the quoted part is written at once.
pub fn put_character<W: Write>(out: &mut W, character: u16) -> io::Result<()> {
    write!(out, "{character}")?;
    match character {
        FIRST_PRINTABLE..=LAST_PRINTABLE => out.write_all(&[b' ', b'\'', character as u8, b'\'']),
        _ => Ok(()),
    }
}

// What stands before a word of a list that comes after so many.
pub fn gap(count: u16) -> &'static str {
    if count == 0 { " " } else { ", " }
}

// The words that a queue holds, first the one that is taken next, to the end of the line; in the input and output buffers they are
// characters.
pub fn put_queue<W: Write>(out: &mut W, im: &[u16], q: u16, i: u16, j: u16) -> io::Result<()> {
    for at in 0..MOST_HELD {
        let gap = gap(at);
        match (q, queue_word(im, q, i, j, at)) {
            (INPUT_BUFFER | OUTPUT_BUFFER, Ok(Some(word))) => {
                write!(out, "{gap}")?;
                put_character(out, word)?;
            }
            (_, Ok(Some(word))) => write!(out, "{gap}{word}")?,
            _ if at == 0 => return writeln!(out, " empty"),
            _ => return writeln!(out),
        }
    }
    writeln!(out)
}
