// The rules of an image's queues, tested.
#![tactic(auto)]

ghost use Rattle.std.specs.Prelude.{◌≡◌, true, ◌&&◌, ◌+◌, ◌<◌};
ghost use Rattle.paper.specs.Image.{lead, at as word_at};
ghost use Rattle.paper.specs.Queues.{Has, header_capacity, queue_word, words_from, held};
ghost use Rattle.paper.specs.Tests.{all_below, every_task, queued as is_queued, cleared as is_cleared, queue_holds as does_queue_hold, buffers_hold as do_buffers_hold, characters as are_characters};
ghost use Rattle.paper.specs.declared.Queue.TheVariants.{Ready};
ghost use Rattle.laws.specs.Sound.{Sized};
ghost use Rattle.queue_rules.specs.ReadyCounts.{NoneFound, AllFound};

use paper::{CAPACITY, COUNT, Cell, HEAD, LEAD_WORDS, MOST_TASKS, Part, Queue, Shape, TAIL};
use places::{head_of, place_of, start_of, word_of};
use queue_rows::{ABOVE_ZERO, leads_right, row_right, rows_right, slots_below, wrapped};

// The capacity that the header gives a queue.
pub fn capacity_of(s: Shape, q: Queue) -> usize
    ensures { result ≡ header_capacity s q }
{
    match q {
        Queue::Ready => s.n,
        Queue::Input(_) => s.ci,
        Queue::Output(_) => s.co,
        Queue::Message(_, _) => s.cm,
    }
}

// Word k of a queue.
pub fn queue_word(s: Shape, im: &[u16], q: Queue, k: usize) -> u16
    requires sized { Sized s im.now }
    requires has { Has s q }
    requires k_bound { k < lead + header_capacity s q }
    ensures { result ≡ word_at s im.now (queue_word s q k) }
{
    word_of(
        s,
        im,
        Cell {
            column: k,
            ..head_of(s, q)
        },
    )
}

// Whether a queue obeys the rules of queues.
pub fn queued(s: Shape, im: &[u16], q: Queue) -> bool
    requires sized { Sized s im.now }
    requires has { Has s q }
    ensures { result ≡ is_queued s im.now q }
{
    let head = queue_word(s, im, q, HEAD);
    let tail = queue_word(s, im, q, TAIL);
    let count = queue_word(s, im, q, COUNT);
    let capacity = queue_word(s, im, q, CAPACITY);
    leads_right(capacity_of(s, q), head, tail, count, capacity)
}

// Whether so many words of a queue, from a slot on, are below m.
fn words_below(s: Shape, im: &[u16], q: Queue, from: usize, n: usize, m: usize) -> bool
    requires sized { Sized s im.now }
    requires has { Has s q }
    requires q_value { is_queued s im.now q ≡ true }
    requires from_bound { from < header_capacity s q }
    ensures { result ≡ all_below m (words_from s im.now q from n) }
{
    let p = place_of(s, head_of(s, q));
    slots_below(im, p, capacity_of(s, q), from, n, m)
}

// Whether each word that a queue holds is below m.
pub fn held_below(s: Shape, im: &[u16], q: Queue, m: usize) -> bool
    requires sized { Sized s im.now }
    requires has { Has s q }
    requires q_value { is_queued s im.now q ≡ true }
    ensures { result ≡ all_below m (held s im.now q) }
{
    let head = usize::from(queue_word(s, im, q, HEAD));
    let count = usize::from(queue_word(s, im, q, COUNT));
    words_below(s, im, q, head, count, m)
}

// Whether every free slot of a queue has 0.
pub fn cleared(s: Shape, im: &[u16], q: Queue) -> bool
    requires sized { Sized s im.now }
    requires has { Has s q }
    requires q_value { is_queued s im.now q ≡ true }
    ensures { result ≡ is_cleared s im.now q }
{
    let tail = usize::from(queue_word(s, im, q, TAIL));
    let count = usize::from(queue_word(s, im, q, COUNT));
    words_below(s, im, q, tail, capacity_of(s, q) - count, ABOVE_ZERO)
}

// Counts how often the ready queue holds each task, up to a word that is no task; whether there is none.
pub fn count_ready(s: Shape, im: &[u16], found: &mut [u8; MOST_TASKS]) -> bool
    requires sized { Sized s im.now }
    requires im_value { is_queued s im.now Ready ≡ true }
    requires none_found { NoneFound found.old }
    ensures value { result ≡ all_below s.n (held s im.now Ready) }
    ensures all_found { result ≡ true → AllFound found.new (held s im.now Ready) }
{
    let mut slot = usize::from(queue_word(s, im, Queue::Ready, HEAD));
    let count = queue_word(s, im, Queue::Ready, COUNT);
    for _ in 0..count {
        let task = usize::from(queue_word(s, im, Queue::Ready, LEAD_WORDS + slot));
        if s.n <= task {
            return false;
        }
        found[task] += 1;
        slot = wrapped(slot + 1, s.n);
    }
    true
}

// Whether the ready queue obeys the rules of queues.
pub fn ready_holds(s: Shape, im: &[u16]) -> bool
    requires { Sized s im.now }
    ensures { result ≡ does_queue_hold s im.now Ready }
{
    row_right(im, start_of(s, Part::ReadyQueue), s.n, false)
}

// Whether all buffers obey the rules of queues, and those of input and output hold characters; at once where all have one capacity.
pub fn buffers_hold(s: Shape, im: &[u16]) -> bool
    requires { Sized s im.now }
    ensures { result ≡ (every_task s (do_buffers_hold s im.now) && every_task s (are_characters s im.now)) }
{
    let inputs = start_of(s, Part::InputBuffers);
    let outputs = start_of(s, Part::OutputBuffers);
    let messages = start_of(s, Part::MessageBuffers);
    let end = start_of(s, Part::Ports);
    if s.ci == s.cm && s.co == s.cm {
        return rows_right(im, inputs, end, s.cm, messages);
    }
    if !rows_right(im, inputs, outputs, s.ci, messages) {
        return false;
    }
    if !rows_right(im, outputs, messages, s.co, messages) {
        return false;
    }
    rows_right(im, messages, end, s.cm, messages)
}
