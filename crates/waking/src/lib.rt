// Dispatch, waking and leaving the ready queue, on a sound image.
#![tactic(auto)]

ghost use Rattle.std.specs.Prelude.{◌≡◌, false, ◌<◌};
ghost use Rattle.paper.specs.Queues.{empty as empty_of, full as full_of};
ghost use Rattle.paper.specs.Waking.{dispatched, with_status as statused, readied, woken, left};
ghost use Rattle.paper.specs.declared.Queue.TheVariants.{Ready};
ghost use Rattle.laws.specs.Sound.{Sound};

use paper::{NO_PEER, Queue, READY, Shape, Task};
use words::{Spot, append, empty, put, take};

// Dispatch: the clock becomes S, or 0 if the ready queue is empty.
pub fn dispatch(s: Shape, im: &mut [u16])
    requires { Sound s im.old }
    ensures im_after { im.new ≡ dispatched s im.old }
    ensures sound { Sound s im.new }
{
    if empty(s, im, Queue::Ready) {
        put(s, im, Spot::Clock, 0);
        return;
    }
    put(s, im, Spot::Clock, s.slice);
}

// A task's status and peer become words.
pub fn with_status(s: Shape, im: &mut [u16], t: Task, status: u16, peer: u16)
    requires sound { Sound s im.old }
    requires t_lt_n { t.0 < s.n }
    ensures im_after { im.new ≡ statused s im.old t status peer }
    ensures sound_2 { Sound s im.new }
{
    put(s, im, Spot::Status(t), status);
    put(s, im, Spot::Peer(t), peer);
}

// A task becomes ready and joins the ready queue, which has room.
fn ready(s: Shape, im: &mut [u16], t: Task)
    requires sound { Sound s im.old }
    requires t_lt_n { t.0 < s.n }
    requires im_value { full_of s im.old Ready ≡ false }
    ensures im_after { im.new ≡ readied s im.old t }
    ensures sound_2 { Sound s im.new }
{
    with_status(s, im, t, READY, NO_PEER);
    append(s, im, Queue::Ready, t.0);
}

// Wakes a task: the ready queue has room.
pub fn wake(s: Shape, im: &mut [u16], t: Task)
    requires sound { Sound s im.old }
    requires t_lt_n { t.0 < s.n }
    requires im_value { full_of s im.old Ready ≡ false }
    ensures im_after { im.new ≡ woken s im.old t }
    ensures sound_2 { Sound s im.new }
{
    let alone = empty(s, im, Queue::Ready);
    ready(s, im, t);
    if alone {
        dispatch(s, im);
    }
}

// The first task leaves the ready queue, which holds it, and another is dispatched.
pub fn leave(s: Shape, im: &mut [u16])
    requires sound { Sound s im.old }
    requires im_value { empty_of s im.old Ready ≡ false }
    ensures im_after { im.new ≡ left s im.old }
    ensures sound_2 { Sound s im.new }
{
    take(s, im, Queue::Ready);
    dispatch(s, im);
}
