// Lists of events from files: their events are taken in pieces, counted, and where one is refused, that is said.
ghost use Rattle.std.specs.Prelude.{◌≡◌, ◌+◌, ◌*◌, ◌<◌, ◌≤◌, length, take};

use causes::{EventCause, event_cause};
use disk::{Outcome, fail, open_source, read_full};
use files::put_words;
use kernel::report;
use paper::{COUNTS, EVENT_WORDS, Refusal};
use runner_events::{EVENT_BYTES, whole_events};
use saying::say_refused_event;
use std::io::Read;
use std::ops::ControlFlow;

// The events that are read at a time: the image is checked once for so many.
const PIECE: usize = 16384;

const PIECE_WORDS: usize = EVENT_WORDS * PIECE;

const PIECE_BYTES: usize = EVENT_BYTES * PIECE;

// More pieces than any file has.
const PIECES_END: u64 = 281474976710656;

// The number of the first event; no list has more than 64 bits can tell.
const FIRST_EVENT: u64 = 1;

// An image of so many tasks as lists of events go on from it, and what they count.
#[derive(Drop)]
pub struct Night<'a> {
    pub im: &'a mut [u16],
    pub tasks: usize,
    pub counts: &'a mut [u32; COUNTS],
}

// Why the event is malformed that comes after so many; one that is not whole is short.
fn cause_of(events: &[u16], taken: usize, tasks: usize) -> EventCause {
    if events.len() / EVENT_WORDS <= taken {
        return EventCause::Short;
    }
    let at = EVENT_WORDS * taken;
    event_cause(events[at], events[at + 1], tasks)
}

// How a list ends of which a last piece was read, of so many bytes, from an event on.
fn end_list<R: Read>(
    rt: &HostRuntime,
    path: &[u8],
    source: &mut R,
    found: usize,
    n: u64,
) -> Outcome {
    let mut more = [0u8; 1];
    if let Err(error) = source.read(&mut more) {
        fail(rt, path, error);
        return Outcome::Unread;
    }
    if found % EVENT_BYTES == 0 {
        return Outcome::Done;
    }
    let short = n.wrapping_add((found / EVENT_BYTES) as u64);
    say_refused_event(rt, path, short, Refusal::MalformedEvent, EventCause::Short);
    Outcome::Refused
}

// How many of the bytes that were found are those of whole events.
fn whole_bytes(bytes: &[u8], found: usize) -> usize
    requires { found ≤ length bytes.now }
    ensures { (result ≤ length bytes.now) × (result ≡ length (take result bytes.now)) }
{
    whole_events(found)
}

// Puts the whole words of some bytes, and answers how many there are.
pub fn put_all(bytes: &[u8], words: &mut [u16]) -> usize
    requires { length bytes.now < 2 * length words.old + 2 }
    ensures { (result ≤ length words.new) × (result ≡ length (take result words.new)) }
{
    put_words(bytes, words)
}

impl Night<'_> {
    // Counts the events of a piece, the first of which has the number n, up to a refused one, which is said and ends the list.
    fn count_events(
        &mut self,
        rt: &HostRuntime,
        path: &[u8],
        events: &[u16],
        n: u64,
    ) -> ControlFlow<Outcome> {
        let ended = report(self.im, events, self.counts);
        match ended.stop {
            Ok(()) => ControlFlow::Continue(()),
            Err(r) => {
                let cause = cause_of(events, ended.taken, self.tasks);
                say_refused_event(rt, path, n.wrapping_add(ended.taken as u64), r, cause);
                ControlFlow::Break(Outcome::Refused)
            }
        }
    }

    // Reads a piece of a list and counts its events, the first of which has the number n; where the list ends with it, answers how.
    fn take_piece<R: Read>(
        &mut self,
        rt: &HostRuntime,
        path: &[u8],
        source: &mut R,
        n: u64,
    ) -> ControlFlow<Outcome> {
        let mut bytes = [0u8; PIECE_BYTES];
        let mut events = [0u16; PIECE_WORDS];
        let found = read_full(source, &mut bytes);
        let end = whole_bytes(&bytes, found);
        let count = put_all(&bytes[..end], &mut events);
        self.count_events(rt, path, &events[..count], n)?;
        if found < PIECE_BYTES {
            return ControlFlow::Break(end_list(rt, path, source, found, n));
        }
        ControlFlow::Continue(())
    }

    // Counts the events of an open list, up to its end or a refused one.
    fn count_open<R: Read>(&mut self, rt: &HostRuntime, path: &[u8], source: &mut R) -> Outcome {
        for piece in 0..PIECES_END {
            let n = FIRST_EVENT + PIECE as u64 * piece;
            if let ControlFlow::Break(outcome) = self.take_piece(rt, path, source, n) {
                return outcome;
            }
        }
        Outcome::Done
    }

    // Counts the events of a list; where it cannot be had, that is said.
    pub fn count_list(&mut self, rt: &HostRuntime, path: &[u8]) -> Outcome {
        match open_source(rt, path) {
            Ok(mut file) => self.count_open(rt, path, &mut file),
            Err(error) => {
                fail(rt, path, error);
                Outcome::Unread
            }
        }
    }
}
