// The rules of a task, tested: its place in the ready queue, its port, its flags and its status.
#![tactic(auto)]

ghost use Rattle.std.specs.Prelude.{◌≡◌, ◌&&◌, ◌||◌, ◌<◌, eqb, leb, length};
ghost use Rattle.paper.specs.Image.{Valid, cell, at as word_at, reg as reg_cell, flags as flags_cell, status as status_cell, peer as peer_cell, busy as busy_cell, character as character_cell};
ghost use Rattle.paper.specs.Queues.{Has, held, empty as empty_of, full as full_of};
ghost use Rattle.paper.specs.Flags.{cc_of, error_of, pending_of, most_cc, most_error, error as error_of_task, pending as pending_of_task};
ghost use Rattle.paper.specs.Services.{services};
ghost use Rattle.paper.specs.Tests.{readied_once as is_readied_once, port_holds as does_port_hold, flags_hold as do_flags_hold, peered as is_peered, standing as is_standing, status_holds as does_status_hold};
ghost use Rattle.paper.specs.declared.Queue.TheVariants.{Ready};
ghost use Rattle.paper.specs.declared.Service.TheVariants.{Send, Receive, Input, Output};
ghost use Rattle.laws.specs.Sound.{Sized};
ghost use Rattle.queue_rules.specs.ReadyCounts.{AllFound};

use paper::{
    ASK_INPUT, ASK_OUTPUT, BUSY, CAPACITY, CHARACTER, COUNT, Cell, ERROR, ERROR_END, FLAGS, IDLE,
    MOST_CC, MOST_CHARACTER, MOST_ERROR, MOST_SERVICE, MOST_TASKS, NO_ERROR, NO_PEER,
    NOTHING_PENDING, OTHER, PEER, PENDING, PORT, Part, Queue, READY, RECEIVE, SEND, STATUS,
    STOPPED, Shape, Task, WAITS_FOR_INPUT, WAITS_FOR_OUTPUT, WAITS_TO_RECEIVE, WAITS_TO_SEND, WORD,
};
use places::word_of;
use queue_rules::queue_word;

// A word of task i's row in a table that has a row for each task.
fn task_word(s: Shape, im: &[u16], part: Part, i: Task, column: usize) -> u16
    requires sized { Sized s im.now }
    requires valid { Valid s (cell part i.0 column) }
    ensures { result ≡ word_at s im.now (cell part i.0 column) }
{
    word_of(
        s,
        im,
        Cell {
            part,
            row: usize::from(i.0),
            column,
        },
    )
}

// A register of task i.
fn register(s: Shape, im: &[u16], i: Task, r: usize) -> u16
    requires sized { Sized s im.now }
    requires i_lt_n { (i.0 < s.n) × (r < 8) }
    ensures { result ≡ word_at s im.now (reg_cell i r) }
{
    task_word(s, im, Part::TaskTable, i, r)
}

// The flags of task i.
pub fn flags(s: Shape, im: &[u16], i: Task) -> u16
    requires sized { Sized s im.now }
    requires i_lt_n { i.0 < s.n }
    ensures { result ≡ word_at s im.now (flags_cell i) }
{
    task_word(s, im, Part::TaskTable, i, FLAGS)
}

// The error of task i.
pub fn error(s: Shape, im: &[u16], i: Task) -> u16
    requires sized { Sized s im.now }
    requires i_lt_n { i.0 < s.n }
    ensures { result ≡ error_of_task s im.now i }
{
    flags(s, im, i) / ERROR % ERROR_END
}

// The pending service of task i.
fn pending(s: Shape, im: &[u16], i: Task) -> u16
    requires sized { Sized s im.now }
    requires i_lt_n { i.0 < s.n }
    ensures { result ≡ pending_of_task s im.now i }
{
    flags(s, im, i) / PENDING
}

// The status of task i.
pub fn status(s: Shape, im: &[u16], i: Task) -> u16
    requires sized { Sized s im.now }
    requires i_lt_n { i.0 < s.n }
    ensures { result ≡ word_at s im.now (status_cell i) }
{
    task_word(s, im, Part::StatusTable, i, STATUS)
}

// The peer of task i.
pub fn peer(s: Shape, im: &[u16], i: Task) -> u16
    requires sized { Sized s im.now }
    requires i_lt_n { i.0 < s.n }
    ensures { result ≡ word_at s im.now (peer_cell i) }
{
    task_word(s, im, Part::StatusTable, i, PEER)
}

// Whether a queue is full.
fn is_full(s: Shape, im: &[u16], q: Queue) -> bool
    requires sized { Sized s im.now }
    requires has { Has s q }
    ensures { result ≡ full_of s im.now q }
{
    queue_word(s, im, q, COUNT) == queue_word(s, im, q, CAPACITY)
}

// Whether a queue is empty.
pub fn is_empty(s: Shape, im: &[u16], q: Queue) -> bool
    requires sized { Sized s im.now }
    requires has { Has s q }
    ensures { result ≡ empty_of s im.now q }
{
    queue_word(s, im, q, COUNT) == 0
}

// Whether the ready queue holds task i once if it is ready, and else not; found tells how often it holds each task.
pub fn readied_once(s: Shape, im: &[u16], i: Task, found: &[u8; MOST_TASKS]) -> bool
    requires sized { Sized s im.now }
    requires i_lt_n { i.0 < s.n }
    requires all_found { AllFound found.now (held s im.now Ready) }
    ensures { result ≡ is_readied_once s im.now i }
{
    let times = found[usize::from(i.0)];
    if status(s, im, i) == READY {
        return times == 1;
    }
    times == 0
}

// Whether the port of task i is busy.
pub fn busy(s: Shape, im: &[u16], i: Task) -> u16
    requires sized { Sized s im.now }
    requires i_lt_n { i.0 < s.n }
    ensures { result ≡ word_at s im.now (busy_cell i) }
{
    task_word(s, im, Part::Ports, i, PORT)
}

// The character of the port of task i.
pub fn character(s: Shape, im: &[u16], i: Task) -> u16
    requires sized { Sized s im.now }
    requires i_lt_n { i.0 < s.n }
    ensures { result ≡ word_at s im.now (character_cell i) }
{
    task_word(s, im, Part::Ports, i, CHARACTER)
}

// Whether the port of task i obeys its rules.
pub fn port_holds(s: Shape, im: &[u16], i: Task) -> bool
    requires sized { Sized s im.now }
    requires i_lt_n { i.0 < s.n }
    ensures { result ≡ does_port_hold s im.now i }
{
    let b = busy(s, im, i);
    let c = character(s, im, i);
    let idle = (c == 0) & is_empty(s, im, Queue::Output(i));
    (b <= BUSY) & (c <= MOST_CHARACTER) & ((b != IDLE) | idle)
}

// Whether the three fields of flags are in their ranges.
pub fn in_ranges(f: u16) -> bool
    ensures { result ≡ (leb (cc_of f) most_cc && leb (error_of f) most_error && leb (pending_of f) (length services)) }
{
    (f % ERROR <= MOST_CC) & (f / ERROR % ERROR_END <= MOST_ERROR) & (f / PENDING <= MOST_SERVICE)
}

// Whether flags have not both an error and a pending service.
pub fn not_both(f: u16) -> bool
    ensures { result ≡ (eqb (error_of f) 0 || eqb (pending_of f) 0) }
{
    (f / ERROR % ERROR_END == NO_ERROR) | (f / PENDING == NOTHING_PENDING)
}

// Whether the flags of task i obey their rules.
pub fn flags_hold(s: Shape, im: &[u16], i: Task) -> bool
    requires sized { Sized s im.now }
    requires i_lt_n { i.0 < s.n }
    ensures { result ≡ do_flags_hold s im.now i }
{
    let f = flags(s, im, i);
    in_ranges(f) & not_both(f)
}

// Whether R2 = peer < N.
fn peered(s: Shape, im: &[u16], i: Task) -> bool
    requires sized { Sized s im.now }
    requires i_lt_n { i.0 < s.n }
    ensures { result ≡ is_peered s im.now i }
{
    let p = peer(s, im, i);
    (register(s, im, i, OTHER) == p) & (usize::from(p) < s.n)
}

// Whether task i stands as one that waits to send.
pub fn may_send(s: Shape, im: &[u16], i: Task) -> bool
    requires sized { Sized s im.now }
    requires i_lt_n { i.0 < s.n }
    ensures { result ≡ is_standing s im.now i Send }
{
    let asked = (pending(s, im, i) == SEND) & peered(s, im, i);
    asked && is_full(s, im, Queue::Message(i, Task(peer(s, im, i))))
}

// Whether task i stands as one that waits to receive.
pub fn may_receive(s: Shape, im: &[u16], i: Task) -> bool
    requires sized { Sized s im.now }
    requires i_lt_n { i.0 < s.n }
    ensures { result ≡ is_standing s im.now i Receive }
{
    let asked = (pending(s, im, i) == RECEIVE) & peered(s, im, i);
    asked && is_empty(s, im, Queue::Message(Task(peer(s, im, i)), i))
}

// Whether task i stands as one that waits for input.
pub fn may_input(s: Shape, im: &[u16], i: Task) -> bool
    requires sized { Sized s im.now }
    requires i_lt_n { i.0 < s.n }
    ensures { result ≡ is_standing s im.now i Input }
{
    (pending(s, im, i) == ASK_INPUT) & is_empty(s, im, Queue::Input(i))
}

// Whether task i stands as one that waits for output.
pub fn may_output(s: Shape, im: &[u16], i: Task) -> bool
    requires sized { Sized s im.now }
    requires i_lt_n { i.0 < s.n }
    ensures { result ≡ is_standing s im.now i Output }
{
    (pending(s, im, i) == ASK_OUTPUT)
        & (register(s, im, i, WORD) <= MOST_CHARACTER)
        & is_full(s, im, Queue::Output(i))
}

// Whether the status of task i obeys its rules.
pub fn status_holds(s: Shape, im: &[u16], i: Task) -> bool
    requires sized { Sized s im.now }
    requires i_lt_n { i.0 < s.n }
    ensures { result ≡ does_status_hold s im.now i }
{
    let peerless = peer(s, im, i) == NO_PEER;
    match status(s, im, i) {
        READY => peerless,
        WAITS_TO_SEND => may_send(s, im, i),
        WAITS_TO_RECEIVE => may_receive(s, im, i),
        WAITS_FOR_INPUT => peerless & may_input(s, im, i),
        WAITS_FOR_OUTPUT => peerless & may_output(s, im, i),
        STOPPED => peerless & (error(s, im, i) != NO_ERROR),
        _ => false,
    }
}
