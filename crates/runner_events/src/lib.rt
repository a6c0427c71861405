// Events from a buffer of bytes, one after another, and the lines that are printed for them.
#![tactic(auto)]

ghost use Rattle.std.specs.Prelude.{◌≡◌, ◌+◌, ◌<◌, ◌≤◌, length, take};
ghost use Rattle.paper.specs.Waking.{outcome};
ghost use Rattle.paper.specs.Events.{happening};
ghost use Rattle.laws.specs.Events.{Lawful};
ghost use Rattle.order_table.specs.Entries.{OrderTable};
ghost use Rattle.runner_lines.specs.Lines.{most_line};
ghost use Rattle.runner_events.specs.Buffers.{event_bytes, event_at, number_end, text_room, FeedsShort, Feeds, ForAnyRest, Whole, Buffered};

use files::word;
use happening::step;
use paper::{Answer, EVENT_WORDS, HIGH_BYTES, Refusal, Shape, WORD_BYTES};
use runner_lines::put_line;

// The bytes of an event: its kind, its device and its character, a word each.
pub const EVENT_BYTES: usize = WORD_BYTES * EVENT_WORDS;

// What came of the events of a buffer: how many bytes of text were written and how many events were taken, which is so much also
// where one was refused, and whether one was.
#[derive(Clone, Copy)]
pub struct Fed {
    pub text: usize,
    pub taken: usize,
    pub stop: Result<(), Refusal>,
}

// Carries out the event of some bytes.
fn step_by(
    s: Shape,
    im: &mut [u16],
    table: &[u16; HIGH_BYTES],
    event: &[u8],
) -> Result<Answer, Refusal>
    requires lawful { Lawful s im.old }
    requires order_table { OrderTable table.now }
    requires event_len { length event.now ≡ event_bytes }
    ensures im_after { outcome result im.new ≡ happening s im.old (event_at s event.now 0) }
    ensures lawful_2 { Lawful s im.new }
{
    let kind = word(event[0], event[1]);
    let device = word(event[2], event[3]);
    let character = word(event[4], event[5]);
    step(s, im, table, kind, device, character)
}

// Writes the line of a last event of under six bytes, after those of the events taken.
fn feed_short(text: usize, taken: usize, n: u64, out: &mut [u8]) -> Fed
    requires taken_bound { n + taken < number_end }
    requires most_line_in_bounds { text + most_line ≤ length out.old }
    ensures { FeedsShort text taken n out.old out.new result.text result.taken result.stop }
{
    let short = Err(Refusal::MalformedEvent);
    Fed {
        text: put_line(out, text, n + taken as u64, short),
        taken,
        stop: Err(Refusal::MalformedEvent),
    }
}

// Takes the events of a buffer, the first of which has the number n, and writes their lines.
fn feed(
    s: Shape,
    im: &mut [u16],
    table: &[u16; HIGH_BYTES],
    bytes: &[u8],
    n: u64,
    out: &mut [u8],
) -> Fed
    requires lawful { Lawful s im.old }
    requires order_table { OrderTable table.now }
    requires bytes_bound { n + length bytes.now < number_end }
    requires bytes_in_bounds { text_room bytes.now ≤ length out.old }
    ensures { Feeds s im.old n bytes.now out.old im.new out.new result.text result.taken result.stop }
{
    let mut text: usize = 0;
    let mut taken: usize = 0;
    for event in bytes.chunks_exact(EVENT_BYTES) {
        let reply = step_by(s, im, table, event);
        text = put_line(out, text, n + taken as u64, reply);
        match reply {
            Ok(_) => taken += 1,
            Err(r) => {
                return Fed {
                    text,
                    taken,
                    stop: Err(r),
                };
            }
        }
    }
    if bytes.len() % EVENT_BYTES == 0 {
        return Fed {
            text,
            taken,
            stop: Ok(()),
        };
    }
    feed_short(text, taken, n, out)
}

// Takes the events of the bytes that were found for a buffer, the first of which has the number n, and writes their lines. The count
// stands beside the buffer, since `Buffered` asks for room and numbers by the whole buffer.
pub fn feed_buffer(
    s: Shape,
    im: &mut [u16],
    table: &[u16; HIGH_BYTES],
    buffer: &[u8],
    found: usize,
    n: u64,
    out: &mut [u8],
) -> Fed
    requires lawful { Lawful s im.old }
    requires order_table { OrderTable table.now }
    requires buffered { Buffered buffer.now found n out.old }
    ensures feeds { Feeds s im.old n (take found buffer.now) out.old im.new out.new result.text result.taken result.stop }
    ensures for_any_rest { ForAnyRest s im.old n (take found buffer.now) im.new result.taken result.stop }
{
    feed(s, im, table, &buffer[..found], n, out)
}

// How many of the bytes that were found are those of whole events.
pub fn whole_events(found: usize) -> usize
    ensures { Whole found result }
{
    found - found % EVENT_BYTES
}
