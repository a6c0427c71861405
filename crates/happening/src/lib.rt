// Events on a good image, one after another: a list of them, and one of them, which is a list of one.
#![tactic(auto)]

ghost use Rattle.std.specs.Prelude.{◌≡◌, false, ◌+◌, ◌*◌, ◌%◌, ◌/◌, ◌<◌, ◌≤◌, length};
ghost use Rattle.paper.specs.Waking.{outcome};
ghost use Rattle.paper.specs.Events.{event_of as event_by, happening};
ghost use Rattle.laws.specs.Events.{Lawful};
ghost use Rattle.order_table.specs.Entries.{OrderTable};
ghost use Rattle.counting.specs.Room.{Room};
ghost use Rattle.noting.specs.Noted.{Ledger};
ghost use Rattle.happening.specs.Lists.{nth_event, Ends};
ghost use Rattle.happening.specs.Tallies.{Tallies};
ghost use Rattle.happening.specs.Ahead.{zeros_at, Ahead, Stops};

use events::{event_of, report};
use paper::{Answer, EVENT_WORDS, HIGH_BYTES, Refusal, Shape};
use ticks::ticks;

// How many events are looked at together: first a few, then more.
const LOOK: usize = 4;

const LONG_LOOK: usize = 8;

// The length of a list of counts in which nothing is counted.
pub const NO_COUNTS: usize = 0;

// How many events were taken, and the reply of the last, or of the one that was refused.
#[derive(Clone, Copy)]
pub struct Took {
    pub taken: usize,
    pub last: Result<Answer, Refusal>,
}

// Whether n words of a list, from a place on, are 0.
fn zeros(l: &[u16], from: usize, n: usize) -> bool
    requires { from + n ≤ length l.now }
    ensures { result ≡ zeros_at l.now from n }
{
    let mut right = true;
    for k in 0..n {
        right = right & (l[from + k] == 0);
    }
    right
}

// Where events that are ticks end, from one event on, as far as looks at several of them tell.
fn looked_ahead(events: &[u16], from: usize, count: usize) -> usize
    requires { (from ≤ count) × (3 * count ≤ length events.now) }
    ensures lower_bound { (from ≤ result) × (result ≤ count) }
    ensures ahead { Ahead events.now from result }
{
    if count - from < LOOK {
        return from;
    }
    if !zeros(events, EVENT_WORDS * from, EVENT_WORDS * LOOK) {
        return from;
    }
    let mut to = from + LOOK;
    // Eight events are passed at a look, and where the looks end is the answer, so this is no for.
    while LONG_LOOK <= count - to {
        if !zeros(events, EVENT_WORDS * to, EVENT_WORDS * LONG_LOOK) {
            return to;
        }
        to += LONG_LOOK;
    }
    to
}

// Where events that are ticks end, from one event on.
fn ticks_ahead(events: &[u16], from: usize, count: usize) -> usize
    requires { (from ≤ count) × (3 * count ≤ length events.now) }
    ensures lower_bound { (from ≤ result) × (result ≤ count) }
    ensures ahead { Ahead events.now from result }
    ensures stops { Stops events.now result count }
{
    for to in looked_ahead(events, from, count)..count {
        if !zeros(events, EVENT_WORDS * to, EVENT_WORDS) {
            return to;
        }
    }
    count
}

// Event k of a list, which is no tick.
fn report_at(s: Shape, im: &mut [u16], events: &[u16], k: usize) -> Result<Answer, Refusal>
    requires lawful { Lawful s im.old }
    requires k_in_bounds { 3 * k + 2 < length events.now }
    requires k_value { zeros_at events.now (3 * k) 3 ≡ false }
    ensures im_after { outcome result im.new ≡ happening s im.old (nth_event s events.now k) }
    ensures lawful_2 { Lawful s im.new }
{
    let at = EVENT_WORDS * k;
    report(
        s,
        im,
        event_of(s, events[at], events[at + 1], events[at + 2]),
    )
}

// Takes the events of a list, one after another, up to the first refused one; its ticks are counted, where there are counts.
pub fn take_events(
    s: Shape,
    im: &mut [u16],
    table: &[u16; HIGH_BYTES],
    counts: &mut [u32],
    events: &[u16],
) -> Took
    requires lawful { Lawful s im.old }
    requires order_table { OrderTable table.now }
    requires events_len { length events.now % 3 ≡ 0 }
    requires ledger { Ledger counts.old }
    requires room { Room counts.old (length events.now / 3) }
    ensures tallies { Tallies s im.old events.now counts.old counts.new }
    ensures ends { Ends s im.old events.now result.taken result.last im.new }
    ensures lawful_2 { Lawful s im.new }
{
    let count = events.len() / EVENT_WORDS;
    let mut taken: usize = 0;
    let mut last = Ok(Answer::Idle);
    // Each round takes as many events as are ticks one after another, so this is no for.
    while taken < count {
        let end = ticks_ahead(events, taken, count);
        if taken < end {
            last = Ok(ticks(s, im, table, counts, end - taken));
            taken = end;
        }
        if taken < count {
            last = report_at(s, im, events, taken);
            if let Err(_) = last {
                return Took { taken, last };
            }
            taken += 1;
        }
    }
    Took { taken, last }
}

// The event of three words: kind, device, character.
#[tactic(auto, using(crate::proofs::Taking::one_outcome))]
pub fn step(
    s: Shape,
    im: &mut [u16],
    table: &[u16; HIGH_BYTES],
    kind: u16,
    device: u16,
    character: u16,
) -> Result<Answer, Refusal>
    requires lawful { Lawful s im.old }
    requires order_table { OrderTable table.now }
    ensures im_after { outcome result im.new ≡ happening s im.old (event_by s kind device character) }
    ensures lawful_2 { Lawful s im.new }
{
    let list: [u16; EVENT_WORDS] = [kind, device, character];
    let mut none: [u32; NO_COUNTS] = [0; NO_COUNTS];
    take_events(s, im, table, &mut none, &list).last
}
