// A queue that lies at a place of the image: head, tail, length, capacity, then its slots.
#![tactic(auto)]

ghost use Rattle.std.specs.Prelude.{◌≡◌, ◌+◌, ◌<◌, get_or, eqb};
ghost use Rattle.paper.specs.Queues.{step as next_slot};
ghost use Rattle.rings.specs.Ring.{Ring, append_at, first_at, take_at};

use paper::{CAPACITY, COUNT, LEAD_WORDS, Place, TAIL};

// What a free slot holds.
const FREE: u16 = 0;

// The slot after slot k of a queue of capacity c.
pub fn step(k: u16, c: u16) -> u16
    requires { k < c }
    ensures { result ≡ next_slot k c }
{
    (k + 1) % c
}

// Appends v to the queue at q, which has room.
pub fn append_at(im: &mut [u16], q: Place, v: u16)
    requires ring { Ring im.old q.0 }
    requires q_bound { get_or im.old (q.0 + 2) 0 < get_or im.old (q.0 + 3) 0 }
    ensures { im.new ≡ append_at im.old q.0 v }
{
    let at = q.0;
    let tail = im[at + TAIL];
    let count = im[at + COUNT];
    let capacity = im[at + CAPACITY];
    im[at + LEAD_WORDS + tail as usize] = v;
    im[at + TAIL] = step(tail, capacity);
    im[at + COUNT] = count + 1;
}

// Takes the first word of the queue at q, which holds one, out of its slot.
pub fn take_at(im: &mut [u16], q: Place) -> u16
    requires ring { Ring im.old q.0 }
    requires nonzero { 0 < get_or im.old (q.0 + 2) 0 }
    ensures { (result ≡ first_at im.old q.0) × (im.new ≡ take_at im.old q.0) }
{
    let at = q.0;
    let head = im[at];
    let count = im[at + COUNT];
    let capacity = im[at + CAPACITY];
    let slot = at + LEAD_WORDS + head as usize;
    let v = im[slot];
    im[slot] = FREE;
    im[at] = step(head, capacity);
    im[at + COUNT] = count - 1;
    v
}

// The first word of the queue at q.
pub fn first_at(im: &[u16], q: Place) -> u16
    requires { Ring im.now q.0 }
    ensures { result ≡ first_at im.now q.0 }
{
    let at = q.0;
    let head = im[at] as usize;
    im[at + LEAD_WORDS + head]
}

// How many words the queue at q holds.
pub fn count_at(im: &[u16], q: Place) -> u16
    requires { Ring im.now q.0 }
    ensures { result ≡ get_or im.now (q.0 + 2) 0 }
{
    let at = q.0;
    im[at + COUNT]
}

// Whether the queue at q is full.
pub fn full_at(im: &[u16], q: Place) -> bool
    requires { Ring im.now q.0 }
    ensures { result ≡ eqb (get_or im.now (q.0 + 2) 0) (get_or im.now (q.0 + 3) 0) }
{
    let at = q.0;
    im[at + COUNT] == im[at + CAPACITY]
}
