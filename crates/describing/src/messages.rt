// The messages of a task, in words.
use crate::queues::put_queue;
use paper::MOST_TASKS;
use std::io;
use std::io::Write;
use views::{MESSAGE_BUFFER, queue_length};

// No task has a number from here on.
pub const TASKS_END: u16 = MOST_TASKS as u16;

// Whether a task has messages for another.
fn has_messages(im: &[u16], i: u16, j: u16) -> bool {
    matches!(queue_length(im, MESSAGE_BUFFER, i, j), Ok(Some(1..)))
}

// The lines of the messages of a task, one for each task that it has some for.
pub fn put_all_messages<W: Write>(out: &mut W, im: &[u16], i: u16) -> io::Result<()> {
    let mut any = false;
    for j in 0..TASKS_END {
        if has_messages(im, i, j) {
            write!(out, "  messages to task {j}:")?;
            put_queue(out, im, MESSAGE_BUFFER, i, j)?;
            any = true;
        }
    }
    if any {
        return Ok(());
    }
    writeln!(out, "  messages: none")
}
