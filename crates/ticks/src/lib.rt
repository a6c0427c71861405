// Ticks: the rules of the first task, one after another, for as long as ticks follow.
#![tactic(auto)]

ghost use Rattle.std.specs.Prelude.{◌≡◌, false, ◌<◌, ◌≤◌, min, Some};
ghost use Rattle.paper.specs.Image.{at as word_at, clock as clock_cell, flags as flags_cell};
ghost use Rattle.paper.specs.Queues.{empty as empty_of};
ghost use Rattle.paper.specs.Waking.{answered};
ghost use Rattle.paper.specs.Events.{tick};
ghost use Rattle.paper.specs.Counts.{tally, counted};
ghost use Rattle.paper.specs.declared.Queue.TheVariants.{Ready};
ghost use Rattle.laws.specs.Events.{Lawful};
ghost use Rattle.order_table.specs.Entries.{OrderTable};
ghost use Rattle.machine.specs.InRow.{row_length};
ghost use Rattle.ticks.specs.Seated.{First, FirstIf, part_of};
ghost use Rattle.words.specs.Spots.{Rowed};
ghost use Rattle.counting.specs.Room.{Room};
ghost use Rattle.noting.specs.Noted.{orders_counted, Ledger};
ghost use Rattle.ticks.specs.Tallied.{tallied, faulted_by, RowCounted};
ghost use Rattle.ticks.specs.Ticks.{Told};
ghost use Rattle.ticks.specs.Rounds.{by_flags, answer_of, stays_of, gone};

use counting::place_of;
use effects::Segment;
use events::{before_order, turn};
use machine::orders;
use noting::{note, note_answer, note_orders};
use paper::{
    Answer, BASE, ERROR, FLAGS, HIGH_BYTES, Heading, IDLE_COUNT, LENGTH, NO_ERROR, Queue, Shape,
    Task,
};
use results::error_of;
use words::{Row, Spot, empty, entry, first, get, own, put, row_of};

// A task's row, and where its segment lies from there.
#[derive(Clone, Copy)]
pub struct Seat {
    pub row: Row,
    pub segment: Segment,
}

// How many ticks were taken at once, and the answer of the last of them: none where it was an order, whose answer the flags of its task tell.
#[derive(Clone, Copy)]
pub struct Gone {
    pub taken: usize,
    pub came: Option<Answer>,
}

// The seat of the first task, which there is.
fn first_seat(s: Shape, im: &[u16]) -> Seat
    requires lawful { Lawful s im.now }
    requires im_value { empty_of s im.now Ready ≡ false }
    ensures { First s im.now result }
{
    let t = Task(first(s, im, Queue::Ready));
    let row = row_of(s, t);
    let from = entry(s, im, t, BASE) as usize - row.place.0;
    Seat {
        row,
        segment: Segment {
            from,
            to: from + entry(s, im, t, LENGTH) as usize,
        },
    }
}

// The lesser of two numbers.
fn least(a: usize, b: u16) -> u16
    ensures { result ≡ min a b }
{
    a.min(b as usize) as u16
}

// Orders of a task in a row, at most so many and for as long as the clock runs, which is not 0: how many there were. The clock is written once.
fn run_orders(
    s: Shape,
    im: &mut [u16],
    table: &[u16; HIGH_BYTES],
    x: Seat,
    clock: u16,
    most: usize,
) -> usize
    requires lawful { Lawful s im.old }
    requires order_table { OrderTable table.now }
    requires first { First s im.old x }
    requires task_bound { word_at s im.old (flags_cell x.row.task) < 4 }
    requires clock_value { clock ≡ word_at s im.old clock_cell }
    requires clock_nonzero { (0 < clock) × (0 < most) }
    ensures value { result ≡ row_length x.segment (part_of x.row.place.0 im.old) (min most clock) }
    ensures told { Told s im.old result (by_flags (word_at s im.new (flags_cell x.row.task)) x.row.task) im.new }
    ensures row_counted { RowCounted s im.old result x.row.task (word_at s im.new (flags_cell x.row.task)) }
    ensures first_2 { First s im.new x }
{
    let ticks = least(most, clock);
    let row = x.row.place.0;
    let taken = orders(&mut im[row..], table, x.segment, ticks);
    put(s, im, Spot::Clock, clock - taken);
    taken as usize
}

// The answer of an order after which the flags are f.
fn by_flags(f: u16, t: Task) -> Answer
    ensures { result ≡ by_flags f t }
{
    if error_of(f) == NO_ERROR {
        return Answer::OrderDone(t);
    }
    Answer::OrderFaulted(t)
}

// Whether the first task is first still after a tick.
fn stays(c: Option<Answer>) -> bool
    ensures { result ≡ stays_of c }
{
    match c {
        Some(a) => matches!(a, Answer::ServiceDone(_) | Answer::ServiceFaulted(_)),
        None => true,
    }
}

// Notes orders of a task in a row, as its flags tell of the last; without counts they are not looked at.
fn note_row(s: Shape, im: &[u16], counts: &mut [u32], x: Seat, n: usize)
    requires lawful { Lawful s im.now }
    requires rowed { Rowed s x.row }
    requires ledger { Ledger counts.old }
    requires room { Room counts.old n }
    requires n_nonzero { 0 < n }
    ensures { counts.new ≡ orders_counted counts.old x.row.task n (faulted_by (word_at s im.now (flags_cell x.row.task))) }
{
    if counts.len() != 0 {
        let flags = own(s, im, x.row, FLAGS);
        note_orders(counts, x.row.task, n, error_of(flags) != NO_ERROR);
    }
}

// A tick by a rule that comes before an order: the flags have an error or a service pending.
fn rule(s: Shape, im: &mut [u16], counts: &mut [u32], x: Seat, flags: u16, clock: u16) -> Answer
    requires lawful { Lawful s im.old }
    requires first { First s im.old x }
    requires flags_value { flags ≡ word_at s im.old (flags_cell x.row.task) }
    requires clock_value { clock ≡ word_at s im.old clock_cell }
    requires le_flags { 4 ≤ flags }
    requires ledger { Ledger counts.old }
    requires room { Room counts.old 1 }
    ensures counts_after { counts.new ≡ counted counts.old (tally result) }
    ensures im_after { answered result im.new ≡ tick s im.old }
    ensures first_if { FirstIf (stays_of (Some result)) s im.new x }
{
    let a = before_order(s, im, x.row, flags, clock);
    note_answer(counts, a);
    a
}

// One tick by the rules of the first task, or orders of it in a row.
fn go_on(
    s: Shape,
    im: &mut [u16],
    table: &[u16; HIGH_BYTES],
    counts: &mut [u32],
    x: Seat,
    most: usize,
) -> Gone
    requires lawful { Lawful s im.old }
    requires order_table { OrderTable table.now }
    requires first { First s im.old x }
    requires most_nonzero { 0 < most }
    requires ledger { Ledger counts.old }
    requires room { Room counts.old most }
    ensures counts_after { counts.new ≡ tallied s im.old result.taken counts.old }
    ensures value { result ≡ gone s im.old x most }
    ensures taken_le_most { result.taken ≤ most }
    ensures told { Told s im.old result.taken (answer_of s im.new x result.came) im.new }
    ensures first_if { FirstIf (stays_of result.came) s im.new x }
{
    let flags = own(s, im, x.row, FLAGS);
    let clock = get(s, im, Spot::Clock);
    if ERROR <= flags {
        return Gone {
            taken: 1,
            came: Some(rule(s, im, counts, x, flags, clock)),
        };
    }
    if clock == 0 {
        let t = x.row.task;
        turn(s, im, t);
        note(counts, place_of(t, Heading::PassedTurns), 1);
        return Gone {
            taken: 1,
            came: Some(Answer::TurnPassed(t)),
        };
    }
    let taken = run_orders(s, im, table, x, clock, most);
    note_row(s, im, counts, x, taken);
    Gone { taken, came: None }
}

// The answer of a tick that came to something.
fn told(s: Shape, im: &[u16], x: Seat, c: Option<Answer>) -> Answer
    requires lawful { Lawful s im.now }
    requires rowed { Rowed s x.row }
    ensures { result ≡ answer_of s im.now x c }
{
    match c {
        Some(a) => a,
        None => by_flags(own(s, im, x.row, FLAGS), x.row.task),
    }
}

// So many ticks: the answer of the last. They are counted, where there are counts.
pub fn ticks(
    s: Shape,
    im: &mut [u16],
    table: &[u16; HIGH_BYTES],
    counts: &mut [u32],
    n: usize,
) -> Answer
    requires lawful { Lawful s im.old }
    requires order_table { OrderTable table.now }
    requires n_nonzero { 0 < n }
    requires ledger { Ledger counts.old }
    requires room { Room counts.old n }
    ensures counts_after { counts.new ≡ tallied s im.old n counts.old }
    ensures told { Told s im.old n result im.new }
    ensures lawful_2 { Lawful s im.new }
{
    if empty(s, im, Queue::Ready) {
        note(counts, IDLE_COUNT, n);
        return Answer::Idle;
    }
    let mut x = first_seat(s, im);
    let mut taken: usize = 0;
    let mut came = None;
    // Each round takes as many ticks as follow by one rule, so this is no for.
    while taken < n {
        let gone = go_on(s, im, table, counts, x, n - taken);
        taken += gone.taken;
        came = gone.came;
        if !stays(came) {
            if empty(s, im, Queue::Ready) {
                if taken < n {
                    note(counts, IDLE_COUNT, n - taken);
                    return Answer::Idle;
                }
                return told(s, im, x, came);
            }
            x = first_seat(s, im);
        }
    }
    told(s, im, x, came)
}
