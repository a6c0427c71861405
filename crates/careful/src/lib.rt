// Events counted one by one, where a count may be at its end: each event is tried on a copy of the image first, which tells its answer.
#![tactic(auto)]

ghost use Rattle.std.specs.Prelude.{◌≡◌, ◌%◌, length};
ghost use Rattle.paper.specs.Events.{event_of, happening};
ghost use Rattle.laws.specs.Events.{Lawful};
ghost use Rattle.order_table.specs.Entries.{OrderTable};
ghost use Rattle.careful.specs.OneByOne.{CountsOne, CountsAll};

use counting::{count, passes_end, tally_of};
use happening::step;
use paper::{Answer, EVENT_WORDS, Ended, HIGH_BYTES, MOST_WORDS, Refusal, Shape};

// The reply that an event would have.
fn foretold(
    s: Shape,
    im: &[u16],
    table: &[u16; HIGH_BYTES],
    copy: &mut [u16; MOST_WORDS],
    kind: u16,
    device: u16,
    character: u16,
) -> Result<Answer, Refusal>
    requires lawful { Lawful s im.now }
    requires order_table { OrderTable table.now }
    ensures { result ≡ (happening s im.now (event_of s kind device character)).reply }
{
    let tried = &mut copy[..im.len()];
    tried.copy_from_slice(im);
    step(s, tried, table, kind, device, character)
}

// One event, counted: 17 is tested last, and what is refused alters nothing.
fn count_event(
    s: Shape,
    im: &mut [u16],
    table: &[u16; HIGH_BYTES],
    copy: &mut [u16; MOST_WORDS],
    counts: &mut [u32],
    kind: u16,
    device: u16,
    character: u16,
) -> Result<Answer, Refusal>
    requires lawful { Lawful s im.old }
    requires order_table { OrderTable table.now }
    ensures counts_one { CountsOne s im.old counts.old (event_of s kind device character) result im.new counts.new }
    ensures lawful_2 { Lawful s im.new }
{
    let a = foretold(s, im, table, copy, kind, device, character)?;
    let t = tally_of(a);
    if passes_end(counts, t) {
        return Err(Refusal::CountFull);
    }
    count(counts, t);
    step(s, im, table, kind, device, character)
}

// Counts the events of a list one by one, up to the first refused one, with room for a copy of the image.
fn count_all(
    s: Shape,
    im: &mut [u16],
    table: &[u16; HIGH_BYTES],
    copy: &mut [u16; MOST_WORDS],
    counts: &mut [u32],
    events: &[u16],
) -> Ended
    requires lawful { Lawful s im.old }
    requires order_table { OrderTable table.now }
    requires events_len { length events.now % 3 ≡ 0 }
    ensures counts_all { CountsAll s im.old counts.old events.now result.taken result.stop im.new counts.new }
    ensures lawful_2 { Lawful s im.new }
{
    let all = events.len() / EVENT_WORDS;
    for taken in 0..all {
        let at = EVENT_WORDS * taken;
        let reply = count_event(
            s,
            im,
            table,
            copy,
            counts,
            events[at],
            events[at + 1],
            events[at + 2],
        );
        if let Err(r) = reply {
            return Ended {
                taken,
                stop: Err(r),
            };
        }
    }
    Ended {
        taken: all,
        stop: Ok(()),
    }
}

// Counts the events of a list one by one, up to the first refused one.
pub fn count_one_by_one(
    s: Shape,
    im: &mut [u16],
    table: &[u16; HIGH_BYTES],
    counts: &mut [u32],
    events: &[u16],
) -> Ended
    requires lawful { Lawful s im.old }
    requires order_table { OrderTable table.now }
    requires events_len { length events.now % 3 ≡ 0 }
    ensures counts_all { CountsAll s im.old counts.old events.now result.taken result.stop im.new counts.new }
    ensures lawful_2 { Lawful s im.new }
{
    let mut copy: [u16; MOST_WORDS] = [0; MOST_WORDS];
    count_all(s, im, table, &mut copy, counts, events)
}
