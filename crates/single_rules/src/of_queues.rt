// The rules of a queue.
ghost use Rattle.std.specs.Prelude.{◌≡◌};
ghost use Rattle.paper.specs.Queues.{Has};
ghost use Rattle.laws.specs.Sound.{Sized};
ghost use Rattle.single_rules.specs.Each.{headers_own, ends_below, length_within, round, below, only_characters, only_tasks, free_zeros};

use paper::{CAPACITY, COUNT, HEAD, Queue, Shape, TAIL};
use queue_rows::CHARACTERS;
use queue_rules::{capacity_of, cleared, held_below, queue_word, queued};

// Whether a queue's capacity is the header's.
pub fn has_capacity(s: Shape, im: &[u16], q: Queue) -> bool
    requires sized { Sized s im.now }
    requires has { Has s q }
    ensures { result ≡ headers_own s im.now q }
{
    usize::from(queue_word(s, im, q, CAPACITY)) == capacity_of(s, q)
}

// Whether head and tail are below the capacity.
pub fn ends_inside(s: Shape, im: &[u16], q: Queue) -> bool
    requires sized { Sized s im.now }
    requires has { Has s q }
    ensures { result ≡ ends_below s im.now q }
{
    let capacity = capacity_of(s, q);
    (usize::from(queue_word(s, im, q, HEAD)) < capacity)
        & (usize::from(queue_word(s, im, q, TAIL)) < capacity)
}

// Whether the length is at most the capacity.
pub fn length_inside(s: Shape, im: &[u16], q: Queue) -> bool
    requires sized { Sized s im.now }
    requires has { Has s q }
    ensures { result ≡ length_within s im.now q }
{
    usize::from(queue_word(s, im, q, COUNT)) <= capacity_of(s, q)
}

// Whether the tail is where head and length lead.
pub fn tail_right(s: Shape, im: &[u16], q: Queue) -> bool
    requires sized { Sized s im.now }
    requires has { Has s q }
    ensures { result ≡ round s im.now q }
{
    let head = usize::from(queue_word(s, im, q, HEAD));
    let count = usize::from(queue_word(s, im, q, COUNT));
    (head + count) % capacity_of(s, q) == usize::from(queue_word(s, im, q, TAIL))
}

// Whether each word that a queue holds is below m, where it obeys the rules of queues.
fn queued_below(s: Shape, im: &[u16], q: Queue, m: usize) -> bool
    requires sized { Sized s im.now }
    requires has { Has s q }
    ensures { result ≡ below s im.now q m }
{
    !queued(s, im, q) || held_below(s, im, q, m)
}

// Whether an input or output buffer holds characters alone.
pub fn holds_characters(s: Shape, im: &[u16], q: Queue) -> bool
    requires sized { Sized s im.now }
    requires has { Has s q }
    ensures { result ≡ only_characters s im.now q }
{
    match q {
        Queue::Input(_) | Queue::Output(_) => queued_below(s, im, q, CHARACTERS),
        Queue::Ready | Queue::Message(_, _) => true,
    }
}

// Whether the ready queue holds tasks alone.
pub fn holds_tasks(s: Shape, im: &[u16], q: Queue) -> bool
    requires sized { Sized s im.now }
    requires has { Has s q }
    ensures { result ≡ only_tasks s im.now q }
{
    match q {
        Queue::Ready => queued_below(s, im, q, s.n),
        Queue::Input(_) | Queue::Output(_) | Queue::Message(_, _) => true,
    }
}

// Whether every free slot has 0, where the queue obeys the rules of queues.
pub fn slots_cleared(s: Shape, im: &[u16], q: Queue) -> bool
    requires sized { Sized s im.now }
    requires has { Has s q }
    ensures { result ≡ free_zeros s im.now q }
{
    !queued(s, im, q) || cleared(s, im, q)
}
