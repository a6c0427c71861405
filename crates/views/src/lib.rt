// Looking into an image: a task, a port, a register, a queue. No call requires anything.
#![tactic(auto)]

ghost use Rattle.std.specs.Prelude.{◌≡◌, ◌<◌};
ghost use Rattle.paper.specs.Queues.{Has, held};
ghost use Rattle.laws.specs.Sound.{Sound};
ghost use Rattle.views.specs.Looks.{task_state, port_state, named_queue, word_in, task_seen, port_seen, register_seen, length_seen, word_seen};
ghost use Rattle.views.specs.Promises.{LooksAtTask, LooksAtPort, LooksAtRegister, LooksAtLength, LooksAtWord};

use inspect::good_shape;
use paper::{
    CAPACITY, ERROR, FLAGS, HEAD, LEAD_WORDS, PENDING, Queue, REGISTERS, Refusal, Shape, Task,
};
use queue_rules::queue_word as word_of_queue;
use results::error_of;
use words::{Spot, count, get, own, row_of};

// What a task stands in: its status and peer, and the fields of its flags.
#[derive(Clone, Copy)]
pub struct TaskState {
    pub status: u16,
    pub peer: u16,
    pub cc: u16,
    pub error: u16,
    pub pending: u16,
}

// What a port stands in.
#[derive(Clone, Copy)]
pub struct PortState {
    pub busy: u16,
    pub character: u16,
}

// The numbers of the kinds of queue.
pub const READY_QUEUE: u16 = 0;

pub const INPUT_BUFFER: u16 = 1;

pub const OUTPUT_BUFFER: u16 = 2;

pub const MESSAGE_BUFFER: u16 = 3;

// The state of a task.
fn state_of(s: Shape, im: &[u16], t: Task) -> TaskState
    requires sound { Sound s im.now }
    requires t_lt_n { t.0 < s.n }
    ensures { result ≡ task_state s im.now t }
{
    let flags = own(s, im, row_of(s, t), FLAGS);
    TaskState {
        status: get(s, im, Spot::Status(t)),
        peer: get(s, im, Spot::Peer(t)),
        cc: flags % ERROR,
        error: error_of(flags),
        pending: flags / PENDING,
    }
}

// The state of a task's port.
fn port_of(s: Shape, im: &[u16], d: Task) -> PortState
    requires sound { Sound s im.now }
    requires d_lt_n { d.0 < s.n }
    ensures { result ≡ port_state s im.now d }
{
    PortState {
        busy: get(s, im, Spot::Busy(d)),
        character: get(s, im, Spot::Character(d)),
    }
}

// The queue that is named by the number of its kind and those of its tasks.
fn queue_named(s: Shape, q: u16, i: u16, j: u16) -> Option<Queue>
    ensures { result ≡ named_queue s q i j }
{
    let from = usize::from(i) < s.n;
    let to = usize::from(j) < s.n;
    match q {
        READY_QUEUE => ((i == 0) & (j == 0)).then_some(Queue::Ready),
        INPUT_BUFFER => (from & (j == 0)).then_some(Queue::Input(Task(i))),
        OUTPUT_BUFFER => (from & (j == 0)).then_some(Queue::Output(Task(i))),
        MESSAGE_BUFFER => (from & to).then_some(Queue::Message(Task(i), Task(j))),
        _ => None,
    }
}

// The word at a place of a queue, counted from its head.
fn held_at(s: Shape, im: &[u16], q: Queue, at: u16) -> Option<u16>
    requires sound { Sound s im.now }
    requires has { Has s q }
    ensures { result ≡ word_in (held s im.now q) at }
{
    if count(s, im, q) <= at {
        return None;
    }
    let head = usize::from(word_of_queue(s, im, q, HEAD));
    let capacity = usize::from(word_of_queue(s, im, q, CAPACITY));
    let slot = (head + usize::from(at)) % capacity;
    Some(word_of_queue(s, im, q, LEAD_WORDS + slot))
}

// A task of a good image, if it is there.
fn see_task(s: Shape, im: &[u16], t: u16) -> Option<TaskState>
    requires { Sound s im.now }
    ensures { result ≡ task_seen s im.now t }
{
    if usize::from(t) < s.n {
        return Some(state_of(s, im, Task(t)));
    }
    None
}

// A port of a good image, if it is there.
fn see_port(s: Shape, im: &[u16], d: u16) -> Option<PortState>
    requires { Sound s im.now }
    ensures { result ≡ port_seen s im.now d }
{
    if usize::from(d) < s.n {
        return Some(port_of(s, im, Task(d)));
    }
    None
}

// A register of a good image, if it is there.
fn see_register(s: Shape, im: &[u16], t: u16, r: u16) -> Option<u16>
    requires { Sound s im.now }
    ensures { result ≡ register_seen s im.now t r }
{
    if (usize::from(t) < s.n) & (r < REGISTERS) {
        return Some(own(s, im, row_of(s, Task(t)), usize::from(r)));
    }
    None
}

// How many words a queue of a good image holds, if it is there.
fn see_length(s: Shape, im: &[u16], q: u16, i: u16, j: u16) -> Option<u16>
    requires { Sound s im.now }
    ensures { result ≡ length_seen s im.now (named_queue s q i j) }
{
    let x = queue_named(s, q, i, j)?;
    Some(count(s, im, x))
}

// A word of a queue of a good image, if it is there.
fn see_word(s: Shape, im: &[u16], q: u16, i: u16, j: u16, at: u16) -> Option<u16>
    requires { Sound s im.now }
    ensures { result ≡ word_seen s im.now (named_queue s q i j) at }
{
    let x = queue_named(s, q, i, j)?;
    held_at(s, im, x, at)
}

// A task: its status, peer, cc, error and pending service.
pub fn task(im: &[u16], t: u16) -> Result<Option<TaskState>, Refusal>
    ensures { LooksAtTask im.now t result }
{
    let s = good_shape(im)?;
    Ok(see_task(s, im, t))
}

// A port: whether it is busy, and its character.
pub fn port(im: &[u16], d: u16) -> Result<Option<PortState>, Refusal>
    ensures { LooksAtPort im.now d result }
{
    let s = good_shape(im)?;
    Ok(see_port(s, im, d))
}

// Register r of a task.
pub fn register(im: &[u16], t: u16, r: u16) -> Result<Option<u16>, Refusal>
    ensures { LooksAtRegister im.now t r result }
{
    let s = good_shape(im)?;
    Ok(see_register(s, im, t, r))
}

// How many words a queue holds.
pub fn queue_length(im: &[u16], q: u16, i: u16, j: u16) -> Result<Option<u16>, Refusal>
    ensures { LooksAtLength im.now q i j result }
{
    let s = good_shape(im)?;
    Ok(see_length(s, im, q, i, j))
}

// The word at a place of a queue; the word at 0 is the one that is taken next.
pub fn queue_word(im: &[u16], q: u16, i: u16, j: u16, at: u16) -> Result<Option<u16>, Refusal>
    ensures { LooksAtWord im.now q i j at result }
{
    let s = good_shape(im)?;
    Ok(see_word(s, im, q, i, j, at))
}
