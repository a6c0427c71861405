// Events: the rules of a tick that come before an order, input and output done, on a sound image in which a task that waits finds room.
#![tactic(auto)]

ghost use Rattle.std.specs.Prelude.{◌≡◌, false, ◌≢◌, ◌<◌, ◌≤◌};
ghost use Rattle.paper.specs.Image.{at as word_at, clock as clock_cell, flags as flags_cell};
ghost use Rattle.paper.specs.Rules.{Flagged};
ghost use Rattle.paper.specs.Waking.{answered, outcome};
ghost use Rattle.paper.specs.Queues.{empty as empty_of};
ghost use Rattle.paper.specs.Events.{event_of as event_by, stopped, turned, turn_of as turn_by, input as input_by, port_next, output_done as output_done_by, happening};
ghost use Rattle.paper.specs.declared.Event.TheVariants.{Tick};
ghost use Rattle.paper.specs.declared.Queue.TheVariants.{Ready};
ghost use Rattle.laws.specs.Sound.{Sound};
ghost use Rattle.laws.specs.Room.{Roomy};
ghost use Rattle.laws.specs.Events.{Formed};
ghost use Rattle.words.specs.Spots.{Rowed};

use connectives::both;
use paper::{
    Answer, Event, IDLE, INPUT, MOST_CHARACTER, OUTPUT_DONE, PENDING, Queue, Refusal, STOPPED,
    Shape, TICK, Task, WAITS_FOR_INPUT, WAITS_FOR_OUTPUT,
};
use services::{print, service};
use waking::{leave, wake};
use words::{Row, Spot, append, empty, full, get, put, take};

// The event of three words.
pub fn event_of(s: Shape, kind: u16, device: u16, character: u16) -> Event
    ensures { result ≡ event_by s kind device character }
{
    if both(kind == TICK, both(device == 0, character == 0)) {
        return Event::Tick;
    }
    let owned = (device as usize) < s.n;
    if both(kind == INPUT, both(owned, character <= MOST_CHARACTER)) {
        return Event::Input(Task(device), character);
    }
    if both(kind == OUTPUT_DONE, both(owned, character == 0)) {
        return Event::OutputDone(Task(device));
    }
    Event::Malformed
}

// Rule 2: the first task stops by its error, and another is dispatched.
fn stop(s: Shape, im: &mut [u16], t: Task)
    requires sound { Sound s im.old }
    requires t_lt_n { t.0 < s.n }
    requires im_value { empty_of s im.old Ready ≡ false }
    ensures im_after { im.new ≡ stopped s im.old t }
    ensures sound_2 { Sound s im.new }
{
    put(s, im, Spot::Status(t), STOPPED);
    leave(s, im);
}

// Rule 3: the first task goes to the end of the ready queue, and the clock becomes S.
pub fn turn(s: Shape, im: &mut [u16], t: Task)
    requires sound { Sound s im.old }
    requires im_value { empty_of s im.old Ready ≡ false }
    ensures im_after { im.new ≡ turned s im.old t }
    ensures sound_2 { Sound s im.new }
{
    take(s, im, Queue::Ready);
    append(s, im, Queue::Ready, t.0);
    put(s, im, Spot::Clock, s.slice);
}

// Rules 2 to 4, of the first task, whose flags have an error or a service pending.
pub fn before_order(s: Shape, im: &mut [u16], x: Row, flags: u16, clock: u16) -> Answer
    requires sound { Sound s im.old }
    requires rowed { Rowed s x }
    requires roomy { Roomy s im.old }
    requires im_value { empty_of s im.old Ready ≡ false }
    requires flagged { Flagged s im.old x.task }
    requires flags_value { flags ≡ word_at s im.old (flags_cell x.task) }
    requires clock_value { clock ≡ word_at s im.old clock_cell }
    requires le_flags { 4 ≤ flags }
    ensures im_after { answered result im.new ≡ turn_by s im.old x.task }
    ensures sound_2 { Sound s im.new }
{
    let t = x.task;
    if flags < PENDING {
        stop(s, im, t);
        return Answer::ErrorStop(t);
    }
    if clock == 0 {
        turn(s, im, t);
        return Answer::TurnPassed(t);
    }
    service(s, im, x, clock, flags / PENDING)
}

// Input and output done are a function each: they differ in the test, in what is done and in the status that is looked at, so one for both would take all three.
// Input: the character is appended, and the owner is woken if it waits for input.
pub fn input(s: Shape, im: &mut [u16], t: Task, c: u16) -> Result<Answer, Refusal>
    requires sound { Sound s im.old }
    requires roomy { Roomy s im.old }
    requires t_lt_n { t.0 < s.n }
    ensures im_after { outcome result im.new ≡ input_by s im.old t c }
    ensures sound_2 { Sound s im.new }
{
    if full(s, im, Queue::Input(t)) {
        return Err(Refusal::InputFull);
    }
    let waiting = get(s, im, Spot::Status(t)) == WAITS_FOR_INPUT;
    append(s, im, Queue::Input(t), c);
    if waiting {
        wake(s, im, t);
    }
    Ok(Answer::Input(t))
}

// The port takes the first word of the output buffer, or goes idle.
fn next_output(s: Shape, im: &mut [u16], t: Task)
    requires sound { Sound s im.old }
    requires t_lt_n { t.0 < s.n }
    ensures im_after { im.new ≡ port_next s im.old t }
    ensures sound_2 { Sound s im.new }
{
    if empty(s, im, Queue::Output(t)) {
        put(s, im, Spot::Busy(t), IDLE);
        put(s, im, Spot::Character(t), 0);
        return;
    }
    print(s, im, t);
}

// Output done: the port goes on, and the owner is woken if it waits for output.
pub fn output_done(s: Shape, im: &mut [u16], t: Task) -> Result<Answer, Refusal>
    requires sound { Sound s im.old }
    requires roomy { Roomy s im.old }
    requires t_lt_n { t.0 < s.n }
    ensures im_after { outcome result im.new ≡ output_done_by s im.old t }
    ensures sound_2 { Sound s im.new }
{
    if get(s, im, Spot::Busy(t)) == IDLE {
        return Err(Refusal::PortIdle);
    }
    let waiting = get(s, im, Spot::Status(t)) == WAITS_FOR_OUTPUT;
    next_output(s, im, t);
    if waiting {
        wake(s, im, t);
    }
    Ok(Answer::OutputDone(t))
}

// An event that is no tick.
pub fn report(s: Shape, im: &mut [u16], e: Event) -> Result<Answer, Refusal>
    requires sound { Sound s im.old }
    requires roomy { Roomy s im.old }
    requires formed { Formed s e }
    requires e_nonzero { e ≢ Tick }
    ensures { outcome result im.new ≡ happening s im.old e }
{
    match e {
        Event::Input(t, c) => input(s, im, t, c),
        Event::OutputDone(t) => output_done(s, im, t),
        _ => Err(Refusal::MalformedEvent),
    }
}
