// Events from an open file: they are taken as they come, and their lines are printed when those that came are done.
ghost use Rattle.std.specs.Prelude.{◌≡◌, ◌+◌, ◌≤◌, length};
ghost use Rattle.laws.specs.Events.{Lawful};
ghost use Rattle.order_table.specs.Entries.{OrderTable};
ghost use Rattle.runner_files.specs.Turns.{Holds, Moved, Tooks, Turns, Buffers};

use causes::{EventCause, event_cause};
use disk::{Outcome, ended, fail};
use files::word;
use order_table::laid_out;
use paper::{HIGH_BYTES, Refusal, Shape};
use runner_events::{EVENT_BYTES, feed_buffer, whole_events};
use runner_lines::MOST_LINE;
use saying::say_refused_event;
use std::io::{Read, Write};

// The events that are read at a time.
const EVENTS: usize = 4096;

const EVENTS_BYTES: usize = EVENT_BYTES * EVENTS;

// A line for each event, and one for a short last one.
const TEXT_BYTES: usize = MOST_LINE * (EVENTS + 1);

// More buffers than any file fills.
const BUFFERS_END: u64 = 1125899906842624;

// The number of the first event.
const FIRST_EVENT: u64 = 1;

// Reads what there is of an open file, after the bytes that are kept, and answers how many bytes more it is; where it cannot, that
// is said.
fn read_more<R: Read>(
    rt: &HostRuntime,
    path: &[u8],
    source: &mut R,
    buffer: &mut [u8],
    kept: usize,
) -> Result<usize, Outcome>
    requires { kept ≤ length buffer.old }
    ensures { Holds (length buffer.new) kept result }
{
    match source.read(&mut buffer[kept..]) {
        Ok(more) => Ok(more),
        Err(error) => {
            fail(rt, path, error);
            Err(Outcome::Unread)
        }
    }
}

// Moves the bytes from one place to another to the start of a buffer, and answers how many they are.
fn keep(buffer: &mut [u8], from: usize, to: usize) -> usize
    requires { (from ≤ to) × (to ≤ length buffer.old) }
    ensures { (from + result ≡ to) × Moved buffer.old buffer.new from result }
{
    buffer.copy_within(from..to, 0);
    to - from
}

// Why the event is malformed whose bytes come first.
fn cause_of(bytes: &[u8], tasks: usize) -> EventCause {
    match bytes {
        [a, b, c, d, _, _, ..] => event_cause(word(*a, *b), word(*c, *d), tasks),
        _ => EventCause::Short,
    }
}

// Says that the event of a number is refused whose bytes come first, and why.
fn refuse_event(rt: &HostRuntime, path: &[u8], n: u64, r: Refusal, bytes: &[u8], tasks: usize) {
    say_refused_event(rt, path, n, r, cause_of(bytes, tasks));
}

// Takes the events of the first bytes of a buffer, the first of which has the number n, and prints their lines; answers how many
// were taken, or how the run ended.
fn take_events(
    rt: &HostRuntime,
    path: &[u8],
    s: Shape,
    im: &mut [u16],
    table: &[u16; HIGH_BYTES],
    buffer: &[u8],
    end: usize,
    n: u64,
    text: &mut [u8],
) -> Result<usize, Outcome>
    requires lawful { Lawful s im.old }
    requires order_table { OrderTable table.now }
    requires buffers { Buffers buffer.now text.old n }
    requires end_in_bounds { end ≤ length buffer.now }
    ensures tooks { Tooks result }
    ensures lawful_2 { Lawful s im.new }
{
    let fed = feed_buffer(s, im, table, buffer, end, n, text);
    let printed = fed.text;
    let stop = fed.stop;
    let from = EVENT_BYTES * fed.taken;
    if let Outcome::Unwritten = ended(rt, rt.stdout().write_all(&text[..printed])) {
        return Err(Outcome::Unwritten);
    }
    match stop {
        Ok(()) => Ok(fed.taken),
        Err(r) => {
            refuse_event(rt, path, n + fed.taken as u64, r, &buffer[from..end], s.n);
            Err(Outcome::Refused)
        }
    }
}

// Reads events once, and takes those that are whole, or at the end of the file all bytes; answers how many were taken, and how many
// bytes of the next one are kept, or how the run ended.
fn run_turn<R: Read>(
    rt: &HostRuntime,
    path: &[u8],
    source: &mut R,
    s: Shape,
    im: &mut [u16],
    table: &[u16; HIGH_BYTES],
    buffer: &mut [u8],
    kept: usize,
    n: u64,
    text: &mut [u8],
) -> Result<(usize, usize), Outcome>
    requires lawful { Lawful s im.old }
    requires order_table { OrderTable table.now }
    requires buffers { Buffers buffer.old text.old n }
    requires kept_in_bounds { kept ≤ length buffer.old }
    ensures turns { Turns result }
    ensures lawful_2 { Lawful s im.new }
{
    let more = read_more(rt, path, source, buffer, kept)?;
    let held = kept + more;
    if more == 0 {
        take_events(rt, path, s, im, table, buffer, held, n, text)?;
        return Err(Outcome::Done);
    }
    let end = whole_events(held);
    let taken = take_events(rt, path, s, im, table, buffer, end, n, text)?;
    Ok((taken, keep(buffer, end, held)))
}

// Reads events and takes them, up to the end or a refusal.
pub fn run_events<R: Read>(
    rt: &HostRuntime,
    path: &[u8],
    source: &mut R,
    s: Shape,
    im: &mut [u16],
) -> Outcome
    requires { Lawful s im.old }
{
    let table = laid_out();
    let mut buffer = [0u8; EVENTS_BYTES];
    let mut text = [0u8; TEXT_BYTES];
    let mut kept: usize = 0;
    let mut n = FIRST_EVENT;
    for turn in 0..BUFFERS_END {
        match run_turn(
            rt,
            path,
            source,
            s,
            im,
            &table,
            &mut buffer,
            kept,
            n,
            &mut text,
        ) {
            Ok((taken, rest)) => {
                n += taken as u64;
                kept = rest;
            }
            Err(outcome) => return outcome,
        }
    }
    Outcome::Done
}
