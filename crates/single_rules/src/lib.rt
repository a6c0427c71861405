// The rules of an image one by one, each tested of one task, of one queue or of the clock.
#![tactic(auto)]

pub mod of_queues;
pub mod of_tasks;

ghost use Rattle.std.specs.Prelude.{◌≡◌, ◌<◌};
ghost use Rattle.paper.specs.Image.{at as word_at, clock};
ghost use Rattle.paper.specs.Queues.{Has};
ghost use Rattle.paper.specs.Rules.{Fit};
ghost use Rattle.laws.specs.Sound.{Sized};
ghost use Rattle.single_rules.specs.Each.{clock_within, clock_idle, kind, queues, subjects, queue, holds as does_hold};

use of_queues::{
    ends_inside, has_capacity, holds_characters, holds_tasks, length_inside, slots_cleared,
    tail_right,
};
use of_tasks::{
    fields_ranged, never_both, peerless, port_ranged, port_rests, readied, stands_for_input,
    stands_for_output, stands_to_receive, stands_to_send, status_known, stopped_by_error,
};
use paper::{CLOCK_AT, Cell, Part, Queue, Shape, Task};
use places::word_of;
use task_rules::is_empty;

// The rules of an image, in the paper's order, and last that of request 6.
#[derive(Clone, Copy)]
pub enum Rule {
    Flags,
    Both,
    Status,
    Capacity,
    HeadTail,
    Length,
    Round,
    Characters,
    Tasks,
    Readied,
    ClockRange,
    ClockIdle,
    Port,
    IdlePort,
    Sends,
    Receives,
    Inputs,
    Outputs,
    Stopped,
    Peerless,
    FreeSlots,
}

// What a rule is of: each task, each queue, or the clock.
#[derive(Clone, Copy)]
pub enum Kind {
    Task,
    Queue,
    Clock,
}

// What a rule is of.
pub fn kind_of(rule: Rule) -> Kind
    ensures { result ≡ kind rule }
{
    match rule {
        Rule::Capacity
        | Rule::HeadTail
        | Rule::Length
        | Rule::Round
        | Rule::Characters
        | Rule::Tasks
        | Rule::FreeSlots => Kind::Queue,
        Rule::ClockRange | Rule::ClockIdle => Kind::Clock,
        Rule::Flags
        | Rule::Both
        | Rule::Status
        | Rule::Readied
        | Rule::Port
        | Rule::IdlePort
        | Rule::Sends
        | Rule::Receives
        | Rule::Inputs
        | Rule::Outputs
        | Rule::Stopped
        | Rule::Peerless => Kind::Task,
    }
}

// Queue k of an image: the ready queue, the input buffers, the output buffers, the message buffers.
pub fn queue_at(s: Shape, k: usize) -> Queue
    requires fit { Fit s }
    requires k_bound { k < queues s }
    ensures { (result ≡ queue s k) × Has s result }
{
    if k == 0 {
        return Queue::Ready;
    }
    let buffer = k - 1;
    if buffer < s.n {
        return Queue::Input(Task(buffer as u16));
    }
    let other = buffer - s.n;
    if other < s.n {
        return Queue::Output(Task(other as u16));
    }
    let message = other - s.n;
    let from = Task((message / s.n) as u16);
    let to = Task((message % s.n) as u16);
    Queue::Message(from, to)
}

// The clock.
fn clock_of(s: Shape, im: &[u16]) -> u16
    requires { Sized s im.now }
    ensures { result ≡ word_at s im.now clock }
{
    word_of(
        s,
        im,
        Cell {
            part: Part::Header,
            row: 0,
            column: CLOCK_AT,
        },
    )
}

// Whether the clock is at most S.
fn clock_ranged(s: Shape, im: &[u16]) -> bool
    requires { Sized s im.now }
    ensures { result ≡ clock_within s im.now }
{
    clock_of(s, im) <= s.slice
}

// Whether the clock is 0 where the ready queue is empty.
fn clock_rests(s: Shape, im: &[u16]) -> bool
    requires { Sized s im.now }
    ensures { result ≡ clock_idle s im.now }
{
    !is_empty(s, im, Queue::Ready) | (clock_of(s, im) == 0)
}

// Whether a rule holds of task k, of queue k or of the clock, whichever it is of.
pub fn holds(s: Shape, im: &[u16], rule: Rule, k: usize) -> bool
    requires sized { Sized s im.now }
    requires k_bound { k < subjects s (kind rule) }
    ensures { result ≡ does_hold s im.now rule k }
{
    let i = Task(k as u16);
    let q = queue_at(s, k);
    match rule {
        Rule::Flags => fields_ranged(s, im, i),
        Rule::Both => never_both(s, im, i),
        Rule::Status => status_known(s, im, i),
        Rule::Capacity => has_capacity(s, im, q),
        Rule::HeadTail => ends_inside(s, im, q),
        Rule::Length => length_inside(s, im, q),
        Rule::Round => tail_right(s, im, q),
        Rule::Characters => holds_characters(s, im, q),
        Rule::Tasks => holds_tasks(s, im, q),
        Rule::Readied => readied(s, im, i),
        Rule::ClockRange => clock_ranged(s, im),
        Rule::ClockIdle => clock_rests(s, im),
        Rule::Port => port_ranged(s, im, i),
        Rule::IdlePort => port_rests(s, im, i),
        Rule::Sends => stands_to_send(s, im, i),
        Rule::Receives => stands_to_receive(s, im, i),
        Rule::Inputs => stands_for_input(s, im, i),
        Rule::Outputs => stands_for_output(s, im, i),
        Rule::Stopped => stopped_by_error(s, im, i),
        Rule::Peerless => peerless(s, im, i),
        Rule::FreeSlots => slots_cleared(s, im, q),
    }
}
