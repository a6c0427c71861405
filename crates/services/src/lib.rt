// The services: what a pending one does for the first task, on a sound image in which a task that waits finds room. Each decides everything before it writes.
#![tactic(auto)]

ghost use Rattle.std.specs.Prelude.{◌≡◌, false, ◌&&◌, ◌<◌, ◌≤◌, eqb};
ghost use Rattle.paper.specs.Image.{at, clock as clock_cell, status as status_of, peer as peer_of};
ghost use Rattle.paper.specs.Flags.{flags_of, cc, error};
ghost use Rattle.paper.specs.Queues.{Has, appended, empty as empty_of, full as full_of};
ghost use Rattle.paper.specs.Waking.{answered, with_status as statused, left};
ghost use Rattle.paper.specs.Services.{asked as asked_by, given, service_faulted, delivered, printing, printing_if_idle, service as service_of};
ghost use Rattle.paper.specs.Events.{acting};
ghost use Rattle.paper.specs.declared.Answer.TheVariants.{ServiceDone, ServiceFaulted, ServiceWaits};
ghost use Rattle.paper.specs.declared.Queue.TheVariants.{Ready, Output};
ghost use Rattle.paper.specs.declared.Service.TheVariants.{Send, Receive, Input, Output as Print};
ghost use Rattle.laws.specs.Sound.{Sound};
ghost use Rattle.laws.specs.Room.{Roomy};
ghost use Rattle.words.specs.Spots.{Rowed};
ghost use Rattle.services.specs.Done.{done};

use connectives::both;
use paper::{
    ASK_INPUT, Answer, BUSY, FLAGS, IDLE, MOST_CHARACTER, NO_CHARACTER, NO_PEER, NO_SUCH_TASK,
    NOTHING_PENDING, OTHER, Queue, RECEIVE, SEND, Shape, Task, WAITS_FOR_INPUT, WAITS_FOR_OUTPUT,
    WAITS_TO_RECEIVE, WAITS_TO_SEND, WORD,
};
use results::{with_fault, with_pending};
use waking::{leave, wake, with_status};
use words::{Row, Spot, append, empty, full, get, own, put, put_own, take};

// Whether a task waits with a status for another.
fn waits_for(s: Shape, im: &[u16], j: Task, status: u16, t: Task) -> bool
    requires sound { Sound s im.now }
    requires j_lt_n { j.0 < s.n }
    ensures { result ≡ (eqb (at s im.now (status_of j)) status && eqb (at s im.now (peer_of j)) t.0) }
{
    both(
        get(s, im, Spot::Status(j)) == status,
        get(s, im, Spot::Peer(j)) == t.0,
    )
}

// A service faults: its error is set, and nothing is pending.
fn fault(s: Shape, im: &mut [u16], x: Row, e: u16) -> Answer
    requires sound { Sound s im.old }
    requires rowed { Rowed s x }
    requires e_bound { e < 8 }
    ensures im_after { answered result im.new ≡ answered (ServiceFaulted x.task) (service_faulted s im.old x.task e) }
    ensures sound_2 { Sound s im.new }
{
    let t = x.task;
    let f = with_fault(own(s, im, x, FLAGS), e);
    put_own(s, im, x, FLAGS, f);
    Answer::ServiceFaulted(t)
}

// The first task waits: it takes a status, leaves the queue, and another is dispatched.
fn wait(s: Shape, im: &mut [u16], x: Row, status: u16, peer: u16) -> Answer
    requires sound { Sound s im.old }
    requires rowed { Rowed s x }
    requires im_value { empty_of s im.old Ready ≡ false }
    ensures im_after { answered result im.new ≡ answered (ServiceWaits x.task) (left s (statused s im.old x.task status peer)) }
    ensures sound_2 { Sound s im.new }
{
    let t = x.task;
    with_status(s, im, t, status, peer);
    leave(s, im);
    Answer::ServiceWaits(t)
}

// The flags of a task, with nothing pending.
fn cleared(s: Shape, im: &[u16], x: Row) -> u16
    requires sound { Sound s im.now }
    requires rowed { Rowed s x }
    ensures { result ≡ flags_of (cc s im.now x.task) (error s im.now x.task) 0 }
{
    with_pending(own(s, im, x, FLAGS), NOTHING_PENDING)
}

// The word in R3 goes to a buffer that has room, and nothing is pending.
fn pass(s: Shape, im: &mut [u16], x: Row, q: Queue) -> Answer
    requires sound { Sound s im.old }
    requires rowed { Rowed s x }
    requires has { Has s q }
    requires q_value { full_of s im.old q ≡ false }
    ensures im_after { answered result im.new ≡ answered (ServiceDone x.task) (done s im.old x.task (appended s im.old q (given s im.old x.task))) }
    ensures sound_2 { Sound s im.new }
{
    let t = x.task;
    let f = cleared(s, im, x);
    let w = own(s, im, x, WORD);
    append(s, im, q, w);
    put_own(s, im, x, FLAGS, f);
    Answer::ServiceDone(t)
}

// The first word of a buffer goes to R3, and nothing is pending.
fn deliver(s: Shape, im: &mut [u16], x: Row, q: Queue) -> Answer
    requires sound { Sound s im.old }
    requires rowed { Rowed s x }
    requires has { Has s q }
    requires q_value { empty_of s im.old q ≡ false }
    ensures im_after { answered result im.new ≡ answered (ServiceDone x.task) (done s im.old x.task (delivered s im.old x.task q)) }
    ensures sound_2 { Sound s im.new }
{
    let t = x.task;
    let f = cleared(s, im, x);
    let w = take(s, im, q);
    put_own(s, im, x, WORD, w);
    put_own(s, im, x, FLAGS, f);
    Answer::ServiceDone(t)
}

// The first word of the output buffer goes to the port, which becomes busy.
pub fn print(s: Shape, im: &mut [u16], t: Task)
    requires sound { Sound s im.old }
    requires t_lt_n { t.0 < s.n }
    requires t_value { empty_of s im.old (Output t) ≡ false }
    ensures im_after { im.new ≡ printing s im.old t }
    ensures sound_2 { Sound s im.new }
{
    let w = take(s, im, Queue::Output(t));
    put(s, im, Spot::Busy(t), BUSY);
    put(s, im, Spot::Character(t), w);
}

// Prints where the port is idle.
fn print_if_idle(s: Shape, im: &mut [u16], t: Task)
    requires sound { Sound s im.old }
    requires t_lt_n { t.0 < s.n }
    requires t_value { empty_of s im.old (Output t) ≡ false }
    ensures im_after { im.new ≡ printing_if_idle s im.old t }
    ensures sound_2 { Sound s im.new }
{
    if get(s, im, Spot::Busy(t)) == IDLE {
        print(s, im, t);
    }
}

// Send and receive are a function each: steps for both that went by the service took 1.35 for 1.25 in the ping-pong (docs/ENGINEERING.md, 104).
// Send: the word in R3 for the task that R2 names, which is woken if it waits for it.
fn send(s: Shape, im: &mut [u16], x: Row) -> Answer
    requires sound { Sound s im.old }
    requires rowed { Rowed s x }
    requires roomy { Roomy s im.old }
    requires im_value { empty_of s im.old Ready ≡ false }
    ensures im_after { answered result im.new ≡ service_of s im.old x.task Send }
    ensures sound_2 { Sound s im.new }
{
    let t = x.task;
    let j = Task(own(s, im, x, OTHER));
    if s.n <= j.0 as usize {
        return fault(s, im, x, NO_SUCH_TASK);
    }
    if full(s, im, Queue::Message(t, j)) {
        return wait(s, im, x, WAITS_TO_SEND, j.0);
    }
    let waiting = waits_for(s, im, j, WAITS_TO_RECEIVE, t);
    let r = pass(s, im, x, Queue::Message(t, j));
    if waiting {
        wake(s, im, j);
    }
    r
}

// Receive: the first word from the task that R2 names, which is woken if it waits to send.
fn receive(s: Shape, im: &mut [u16], x: Row) -> Answer
    requires sound { Sound s im.old }
    requires rowed { Rowed s x }
    requires roomy { Roomy s im.old }
    requires im_value { empty_of s im.old Ready ≡ false }
    ensures im_after { answered result im.new ≡ service_of s im.old x.task Receive }
    ensures sound_2 { Sound s im.new }
{
    let t = x.task;
    let j = Task(own(s, im, x, OTHER));
    if s.n <= j.0 as usize {
        return fault(s, im, x, NO_SUCH_TASK);
    }
    if empty(s, im, Queue::Message(j, t)) {
        return wait(s, im, x, WAITS_TO_RECEIVE, j.0);
    }
    let waiting = waits_for(s, im, j, WAITS_TO_SEND, t);
    let r = deliver(s, im, x, Queue::Message(j, t));
    if waiting {
        wake(s, im, j);
    }
    r
}

// Input: the first word of the input buffer.
fn input(s: Shape, im: &mut [u16], x: Row) -> Answer
    requires sound { Sound s im.old }
    requires rowed { Rowed s x }
    requires im_value { empty_of s im.old Ready ≡ false }
    ensures im_after { answered result im.new ≡ service_of s im.old x.task Input }
    ensures sound_2 { Sound s im.new }
{
    let t = x.task;
    if empty(s, im, Queue::Input(t)) {
        return wait(s, im, x, WAITS_FOR_INPUT, NO_PEER);
    }
    deliver(s, im, x, Queue::Input(t))
}

// Output: the word in R3, printed where the port is idle.
fn output(s: Shape, im: &mut [u16], x: Row) -> Answer
    requires sound { Sound s im.old }
    requires rowed { Rowed s x }
    requires im_value { empty_of s im.old Ready ≡ false }
    ensures im_after { answered result im.new ≡ service_of s im.old x.task Print }
    ensures sound_2 { Sound s im.new }
{
    let t = x.task;
    let w = own(s, im, x, WORD);
    if MOST_CHARACTER < w {
        return fault(s, im, x, NO_CHARACTER);
    }
    if full(s, im, Queue::Output(t)) {
        return wait(s, im, x, WAITS_FOR_OUTPUT, NO_PEER);
    }
    let f = cleared(s, im, x);
    append(s, im, Queue::Output(t), w);
    print_if_idle(s, im, t);
    put_own(s, im, x, FLAGS, f);
    Answer::ServiceDone(t)
}

// Rule 4: the clock falls by 1, then the service that the first task has pending, by its number.
pub fn service(s: Shape, im: &mut [u16], x: Row, clock: u16, pending: u16) -> Answer
    requires sound { Sound s im.old }
    requires rowed { Rowed s x }
    requires roomy { Roomy s im.old }
    requires im_value { empty_of s im.old Ready ≡ false }
    requires clock_value { clock ≡ at s im.old clock_cell }
    requires clock_nonzero { 0 < clock }
    requires le_pending { (1 ≤ pending) × (pending ≤ 4) }
    ensures im_after { answered result im.new ≡ acting s im.old x.task (asked_by pending) }
    ensures sound_2 { Sound s im.new }
{
    put(s, im, Spot::Clock, clock - 1);
    match pending {
        SEND => send(s, im, x),
        RECEIVE => receive(s, im, x),
        ASK_INPUT => input(s, im, x),
        _ => output(s, im, x),
    }
}
