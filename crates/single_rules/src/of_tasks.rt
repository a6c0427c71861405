// The rules of a task.
ghost use Rattle.std.specs.Prelude.{◌≡◌, ◌<◌};
ghost use Rattle.paper.specs.declared.Service.TheVariants.{Send, Receive, Input, Output};
ghost use Rattle.laws.specs.Sound.{Sized};
ghost use Rattle.single_rules.specs.Each.{fields_within, one_at_most, known, once_if_ready, port_within, port_idle, stands, stopped, no_peer};

use paper::{
    BUSY, IDLE, MOST_CHARACTER, MOST_TASKS, NO_ERROR, NO_PEER, Queue, STOPPED, Shape, Task,
    WAITS_FOR_INPUT, WAITS_FOR_OUTPUT, WAITS_TO_RECEIVE, WAITS_TO_SEND,
};
use queue_rules::{count_ready, queued};
use task_rules::{
    busy, character, error, flags, in_ranges, is_empty, may_input, may_output, may_receive,
    may_send, not_both, peer, readied_once, status,
};

// Whether cc, error and pending are in their ranges.
pub fn fields_ranged(s: Shape, im: &[u16], i: Task) -> bool
    requires sized { Sized s im.now }
    requires i_lt_n { i.0 < s.n }
    ensures { result ≡ fields_within s im.now i }
{
    in_ranges(flags(s, im, i))
}

// Whether error and pending are not both set.
pub fn never_both(s: Shape, im: &[u16], i: Task) -> bool
    requires sized { Sized s im.now }
    requires i_lt_n { i.0 < s.n }
    ensures { result ≡ one_at_most s im.now i }
{
    not_both(flags(s, im, i))
}

// Whether the status is one of those that there are.
pub fn status_known(s: Shape, im: &[u16], i: Task) -> bool
    requires sized { Sized s im.now }
    requires i_lt_n { i.0 < s.n }
    ensures { result ≡ known s im.now i }
{
    status(s, im, i) <= STOPPED
}

// Whether the ready queue holds task i once if it is ready, and else not, where that queue obeys its own rules.
pub fn readied(s: Shape, im: &[u16], i: Task) -> bool
    requires sized { Sized s im.now }
    requires i_lt_n { i.0 < s.n }
    ensures { result ≡ once_if_ready s im.now i }
{
    if !queued(s, im, Queue::Ready) {
        return true;
    }
    let mut found: [u8; MOST_TASKS] = [0; MOST_TASKS];
    if !count_ready(s, im, &mut found) {
        return true;
    }
    readied_once(s, im, i, &found)
}

// Whether the port's busy is 0 or 1, and its character one.
pub fn port_ranged(s: Shape, im: &[u16], i: Task) -> bool
    requires sized { Sized s im.now }
    requires i_lt_n { i.0 < s.n }
    ensures { result ≡ port_within s im.now i }
{
    (busy(s, im, i) <= BUSY) & (character(s, im, i) <= MOST_CHARACTER)
}

// Whether a port that is idle has the character 0, and its output buffer is empty.
pub fn port_rests(s: Shape, im: &[u16], i: Task) -> bool
    requires sized { Sized s im.now }
    requires i_lt_n { i.0 < s.n }
    ensures { result ≡ port_idle s im.now i }
{
    let rests = (character(s, im, i) == 0) & is_empty(s, im, Queue::Output(i));
    (busy(s, im, i) != IDLE) | rests
}

// Whether a task that waits to send stands so.
pub fn stands_to_send(s: Shape, im: &[u16], i: Task) -> bool
    requires sized { Sized s im.now }
    requires i_lt_n { i.0 < s.n }
    ensures { result ≡ stands Send s im.now i }
{
    (status(s, im, i) != WAITS_TO_SEND) | may_send(s, im, i)
}

// Whether a task that waits to receive stands so.
pub fn stands_to_receive(s: Shape, im: &[u16], i: Task) -> bool
    requires sized { Sized s im.now }
    requires i_lt_n { i.0 < s.n }
    ensures { result ≡ stands Receive s im.now i }
{
    (status(s, im, i) != WAITS_TO_RECEIVE) | may_receive(s, im, i)
}

// Whether a task that waits for input stands so.
pub fn stands_for_input(s: Shape, im: &[u16], i: Task) -> bool
    requires sized { Sized s im.now }
    requires i_lt_n { i.0 < s.n }
    ensures { result ≡ stands Input s im.now i }
{
    (status(s, im, i) != WAITS_FOR_INPUT) | may_input(s, im, i)
}

// Whether a task that waits for output stands so.
pub fn stands_for_output(s: Shape, im: &[u16], i: Task) -> bool
    requires sized { Sized s im.now }
    requires i_lt_n { i.0 < s.n }
    ensures { result ≡ stands Output s im.now i }
{
    (status(s, im, i) != WAITS_FOR_OUTPUT) | may_output(s, im, i)
}

// Whether a task that is stopped has an error.
pub fn stopped_by_error(s: Shape, im: &[u16], i: Task) -> bool
    requires sized { Sized s im.now }
    requires i_lt_n { i.0 < s.n }
    ensures { result ≡ stopped s im.now i }
{
    (status(s, im, i) != STOPPED) | (error(s, im, i) != NO_ERROR)
}

// Whether a task that waits for no other has the peer 0.
pub fn peerless(s: Shape, im: &[u16], i: Task) -> bool
    requires sized { Sized s im.now }
    requires i_lt_n { i.0 < s.n }
    ensures { result ≡ no_peer s im.now i }
{
    let k = status(s, im, i);
    (k == WAITS_TO_SEND) | (k == WAITS_TO_RECEIVE) | (peer(s, im, i) == NO_PEER)
}
