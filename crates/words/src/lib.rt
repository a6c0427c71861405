// The words and the queues of an image of shape s, by their names.
#![tactic(auto)]

ghost use Rattle.std.specs.Prelude.{◌≡◌, false, ◌<◌};
ghost use Rattle.paper.specs.Image.{cell, place, at as word_at, put as put_word};
ghost use Rattle.paper.specs.declared.Part.TheVariants.{TaskTable, SegmentTable};
ghost use Rattle.paper.specs.Rules.{Fit};
ghost use Rattle.paper.specs.Queues.{Has, head, appended, first as first_of, taken, count as count_cell, empty as empty_of, full as full_of};
ghost use Rattle.laws.specs.Sound.{Sound};
ghost use Rattle.words.specs.Spots.{spot_cell, HasSpot, Rowed};

use paper::{CHARACTER, CLOCK_AT, Cell, PEER, PORT, Part, Place, Queue, STATUS, Shape, Task};
use places::{head_of, place_of, store, word_of};
use rings::{append_at, count_at, first_at, full_at, take_at};

// The words that may be written one by one: all but the header's, the task table's, the queues', the segment table's and the segments'.
#[derive(Clone, Copy)]
pub enum Spot {
    Clock,
    Status(Task),
    Peer(Task),
    Busy(Task),
    Character(Task),
}

// A task's row of the task table: the task, and the place of the row's first word.
#[derive(Clone, Copy)]
pub struct Row {
    pub task: Task,
    pub place: Place,
}

// The cell that a spot names.
fn cell_of(x: Spot) -> Cell
    ensures { result ≡ spot_cell x }
{
    match x {
        Spot::Clock => Cell {
            part: Part::Header,
            row: 0,
            column: CLOCK_AT,
        },
        Spot::Status(t) => Cell {
            part: Part::StatusTable,
            row: t.0 as usize,
            column: STATUS,
        },
        Spot::Peer(t) => Cell {
            part: Part::StatusTable,
            row: t.0 as usize,
            column: PEER,
        },
        Spot::Busy(t) => Cell {
            part: Part::Ports,
            row: t.0 as usize,
            column: PORT,
        },
        Spot::Character(t) => Cell {
            part: Part::Ports,
            row: t.0 as usize,
            column: CHARACTER,
        },
    }
}

// The word at a spot.
pub fn get(s: Shape, im: &[u16], x: Spot) -> u16
    requires sound { Sound s im.now }
    requires has_spot { HasSpot s x }
    ensures { result ≡ word_at s im.now (spot_cell x) }
{
    word_of(s, im, cell_of(x))
}

// Writes a word at a spot.
pub fn put(s: Shape, im: &mut [u16], x: Spot, v: u16)
    requires sound { Sound s im.old }
    requires has_spot { HasSpot s x }
    ensures im_after { im.new ≡ put_word s im.old (spot_cell x) v }
    ensures sound_2 { Sound s im.new }
{
    store(im, place_of(s, cell_of(x)), v);
}

// The place of a queue's first word.
fn queue_place(s: Shape, q: Queue) -> Place
    requires fit { Fit s }
    requires has { Has s q }
    ensures { result ≡ place s (head s q) }
{
    place_of(s, head_of(s, q))
}

// How many words a queue holds.
pub fn count(s: Shape, im: &[u16], q: Queue) -> u16
    requires sound { Sound s im.now }
    requires has { Has s q }
    ensures { result ≡ word_at s im.now (count_cell s q) }
{
    count_at(im, queue_place(s, q))
}

// Whether a queue is full.
pub fn full(s: Shape, im: &[u16], q: Queue) -> bool
    requires sound { Sound s im.now }
    requires has { Has s q }
    ensures { result ≡ full_of s im.now q }
{
    full_at(im, queue_place(s, q))
}

// Whether a queue is empty.
pub fn empty(s: Shape, im: &[u16], q: Queue) -> bool
    requires sound { Sound s im.now }
    requires has { Has s q }
    ensures { result ≡ empty_of s im.now q }
{
    count(s, im, q) == 0
}

// The first word of a queue.
pub fn first(s: Shape, im: &[u16], q: Queue) -> u16
    requires sound { Sound s im.now }
    requires has { Has s q }
    ensures { result ≡ first_of s im.now q }
{
    first_at(im, queue_place(s, q))
}

// Appends a word to a queue that has room.
pub fn append(s: Shape, im: &mut [u16], q: Queue, v: u16)
    requires sound { Sound s im.old }
    requires has { Has s q }
    requires q_value { full_of s im.old q ≡ false }
    ensures im_after { im.new ≡ appended s im.old q v }
    ensures sound_2 { Sound s im.new }
{
    append_at(im, queue_place(s, q), v);
}

// Takes the first word of a queue that holds one.
pub fn take(s: Shape, im: &mut [u16], q: Queue) -> u16
    requires sound { Sound s im.old }
    requires has { Has s q }
    requires q_value { empty_of s im.old q ≡ false }
    ensures value { result ≡ first_of s im.old q }
    ensures im_after { im.new ≡ taken s im.old q }
    ensures sound_2 { Sound s im.new }
{
    take_at(im, queue_place(s, q))
}

// A word of a task's entry in the segment table.
pub fn entry(s: Shape, im: &[u16], t: Task, k: usize) -> u16
    requires sound { Sound s im.now }
    requires t_lt_n { (t.0 < s.n) × (k < 2) }
    ensures { result ≡ word_at s im.now (cell SegmentTable t.0 k) }
{
    word_of(
        s,
        im,
        Cell {
            part: Part::SegmentTable,
            row: t.0 as usize,
            column: k,
        },
    )
}

// The row of a task.
pub fn row_of(s: Shape, t: Task) -> Row
    requires fit { Fit s }
    requires t_lt_n { t.0 < s.n }
    ensures task_value { result.task ≡ t }
    ensures rowed { Rowed s result }
{
    let first = Cell {
        part: Part::TaskTable,
        row: t.0 as usize,
        column: 0,
    };
    Row {
        task: t,
        place: place_of(s, first),
    }
}

// A word of a row. Registers and flags are not spots: from the row's place, which a tick has in hand, each is one sum away (docs/SPEED.md).
pub fn own(s: Shape, im: &[u16], x: Row, k: usize) -> u16
    requires sound { Sound s im.now }
    requires rowed { Rowed s x }
    requires k_bound { k < 9 }
    ensures { result ≡ word_at s im.now (cell TaskTable x.task.0 k) }
{
    let at = x.place.0 + k;
    im[at]
}

// Writes a word of a row.
pub fn put_own(s: Shape, im: &mut [u16], x: Row, k: usize, v: u16)
    requires sound { Sound s im.old }
    requires rowed { Rowed s x }
    requires k_bound { k < 9 }
    ensures im_after { im.new ≡ put_word s im.old (cell TaskTable x.task.0 k) v }
    ensures sound_2 { Sound s im.new }
{
    let at = x.place.0 + k;
    im[at] = v;
}
