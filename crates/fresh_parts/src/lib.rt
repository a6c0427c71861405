// The rows and parts of a fresh image: each call writes words from a place of the image on, and answers where the next word goes.
#![tactic(auto)]

ghost use Rattle.std.specs.Prelude.{◌≡◌, true, [], ◌∷◌, ◌++◌, ◌+◌, ◌-◌, ◌≤◌, length as list_length, replicate};
ghost use Rattle.paper.specs.Image.{header_words, most_tasks, most_capacity, most_words, header, total, place_at};
ghost use Rattle.paper.specs.Plans.{joined, fresh_queue, fresh_part};
ghost use Rattle.paper.specs.declared.Part.TheVariants.{TaskTable, SegmentTable, Segments};
ghost use Rattle.plans.specs.Sizes.{Packed};
ghost use Rattle.writes.specs.Written.{written};
ghost use Rattle.writes.specs.Zeroed.{Zeroed};
ghost use Rattle.fresh_parts.specs.Accepted.{Plan};
ghost use Rattle.fresh_parts.specs.Writing.{RoomFor, Wrote, fresh_task};

use paper::{
    CAPACITY, EDITION, ENTRY_WORDS, HEADER_WORDS, INPUT_BUFFERS, LEAD_WORDS, LEADING_WORDS, MARK,
    MESSAGE_BUFFERS, OUTPUT_BUFFERS, PAIR_WORDS, PORTS, Place, READY_QUEUE, SEGMENT_TABLE,
    SEGMENTS, STACK, STATUS_TABLE, Shape, TASK_TABLE, TASK_WORDS, Task,
};
use plans::{length_of, program_of, total_of};
use writes::{put_word, put_words, put_zeros};

// The head and the tail of a queue before it was used.
const FIRST_SLOT: u16 = 0;

// How many words of a task come after R1.
const LATER_WORDS: usize = TASK_WORDS - STACK - 1;

// The most words for each task of a plan whose programs are short, so that it is faster to write zeros over all segments at once.
const SHORT_PLAN: usize = 128;

// The header and the clock.
pub fn put_header(s: Shape, out: &mut [u16]) -> Place
    requires packed { Packed s }
    requires s_bound { total s ≤ most_words }
    requires header_words_bound { header_words ≤ list_length out.old }
    ensures { Wrote out.old (place_at 0) (header s ++ (s.slice ∷ [])) out.new result }
{
    let o = s.starts;
    let t = total_of(s) as u16;
    let words = [
        MARK,
        EDITION,
        s.n as u16,
        s.slice,
        s.ci as u16,
        s.co as u16,
        s.cm as u16,
        o[TASK_TABLE] as u16,
        o[READY_QUEUE] as u16,
        o[STATUS_TABLE] as u16,
        o[INPUT_BUFFERS] as u16,
        o[OUTPUT_BUFFERS] as u16,
        o[MESSAGE_BUFFERS] as u16,
        o[PORTS] as u16,
        o[SEGMENT_TABLE] as u16,
        o[SEGMENTS] as u16,
        t,
        s.slice,
    ];
    Place(put_words(out, 0, &words))
}

// A task where the words are 0: R1 = L.
fn put_task(out: &mut [u16], at: Place, length: u16) -> Place
    requires room_for { RoomFor out.old at (fresh_task length) }
    requires zeroed { Zeroed out.old at.0 (list_length (fresh_task length)) }
    ensures { Wrote out.old at (fresh_task length) out.new result }
{
    let later = put_word(out, at.0 + STACK, length);
    Place(later + LATER_WORDS)
}

// The leading words of a queue that starts at slot 0.
pub fn put_lead(out: &mut [u16], at: Place, count: u16, capacity: u16) -> Place
    requires { RoomFor out.old at (0 ∷ 0 ∷ count ∷ capacity ∷ []) }
    ensures { Wrote out.old at (0 ∷ 0 ∷ count ∷ capacity ∷ []) out.new result }
{
    let words = [FIRST_SLOT, FIRST_SLOT, count, capacity];
    Place(put_words(out, at.0, &words))
}

// An empty queue where the words are 0.
fn put_queue(out: &mut [u16], at: Place, capacity: usize) -> Place
    requires capacity_le_most_capacity { capacity ≤ most_capacity }
    requires room_for { RoomFor out.old at (fresh_queue capacity) }
    requires zeroed { Zeroed out.old at.0 (list_length (fresh_queue capacity)) }
    ensures { Wrote out.old at (fresh_queue capacity) out.new result }
{
    let slots = put_word(out, at.0 + CAPACITY, capacity as u16);
    Place(slots + capacity)
}

// A segment's entry in the segment table.
fn put_entry(out: &mut [u16], at: Place, base: u16, length: u16) -> Place
    requires { RoomFor out.old at (base ∷ length ∷ []) }
    ensures { Wrote out.old at (base ∷ length ∷ []) out.new result }
{
    let words = [base, length];
    Place(put_words(out, at.0, &words))
}

// A segment: a program followed by zeros, which are there already where the words are 0.
fn put_segment(out: &mut [u16], at: Place, program: &[u16], length: u16, zeroed: bool) -> Place
    requires program_in_bounds { list_length program.now ≤ length }
    requires length_bound { at.0 + length ≤ list_length out.old }
    requires zeroed { zeroed ≡ true → Zeroed out.old at.0 length }
    ensures result_value { result.0 ≡ at.0 + length }
    ensures out_after { out.new ≡ written out.old at.0 (program.now ++ replicate (length - list_length program.now) 0) }
{
    let whole = length as usize;
    let zeros = put_words(out, at.0, program);
    if zeroed {
        return Place(at.0 + whole);
    }
    Place(put_zeros(out, zeros, whole - program.len()))
}

// Each part is a loop of its own: one function over a closure that writes a row would have to say of any closure what the calls in these loops ask and make.

// The numbers 0..n-1.
pub fn put_numbers(out: &mut [u16], at: Place, n: usize) -> Place
    requires n_le_most_tasks { n ≤ most_tasks }
    requires room_for { RoomFor out.old at (joined n (λ k. k ∷ [])) }
    ensures { Wrote out.old at (joined n (λ k. k ∷ [])) out.new result }
{
    let mut next = at;
    for k in 0..n {
        next = Place(put_word(out, next.0, k as u16));
    }
    next
}

// Rows of empty queues where the words are 0.
pub fn put_queues(out: &mut [u16], at: Place, rows: usize, capacity: usize) -> Place
    requires capacity_le_most_capacity { capacity ≤ most_capacity }
    requires room_for { RoomFor out.old at (joined rows (λ i. fresh_queue capacity)) }
    requires zeroed { Zeroed out.old at.0 (list_length (joined rows (λ i. fresh_queue capacity))) }
    ensures { Wrote out.old at (joined rows (λ i. fresh_queue capacity)) out.new result }
{
    let mut next = at;
    for k in 0..rows {
        next = put_queue(out, next, capacity);
    }
    next
}

// The task table where the words are 0.
pub fn put_tasks(s: Shape, plan: &[u16], out: &mut [u16], at: Place) -> Place
    requires plan { Plan s plan.now }
    requires room_for { RoomFor out.old at (fresh_part s plan.now TaskTable) }
    requires zeroed { Zeroed out.old at.0 (list_length (fresh_part s plan.now TaskTable)) }
    ensures { Wrote out.old at (fresh_part s plan.now TaskTable) out.new result }
{
    let mut next = at;
    for k in 0..s.n {
        next = put_task(out, next, length_of(plan, Task(k as u16)));
    }
    next
}

// The segment table.
pub fn put_table(s: Shape, plan: &[u16], out: &mut [u16], at: Place) -> Place
    requires plan { Plan s plan.now }
    requires room_for { RoomFor out.old at (fresh_part s plan.now SegmentTable) }
    ensures { Wrote out.old at (fresh_part s plan.now SegmentTable) out.new result }
{
    let starts = s.starts;
    let mut base = starts[SEGMENTS];
    let mut next = at;
    for k in 0..s.n {
        let length = length_of(plan, Task(k as u16));
        next = put_entry(out, next, base as u16, length);
        base += length as usize;
    }
    next
}

// The segments where it is known whether their words are 0.
fn put_programs(s: Shape, plan: &[u16], out: &mut [u16], at: Place, zeroed: bool)
    requires plan { Plan s plan.now }
    requires room_for { RoomFor out.old at (fresh_part s plan.now Segments) }
    requires zeroed { zeroed ≡ true → Zeroed out.old at.0 (list_length (fresh_part s plan.now Segments)) }
    ensures { out.new ≡ written out.old at.0 (fresh_part s plan.now Segments) }
{
    let mut from = LEADING_WORDS + PAIR_WORDS * s.n;
    let mut next = at;
    for k in 0..s.n {
        let i = Task(k as u16);
        let length = length_of(plan, i);
        let end = from + program_of(plan, i) as usize;
        next = put_segment(out, next, &plan[from..end], length, zeroed);
        from = end;
    }
}

// The segments, the last part.
pub fn put_segments(s: Shape, plan: &[u16], out: &mut [u16], at: Place)
    requires plan { Plan s plan.now }
    requires room_for { RoomFor out.old at (fresh_part s plan.now Segments) }
    ensures { out.new ≡ written out.old at.0 (fresh_part s plan.now Segments) }
{
    if plan.len() <= SHORT_PLAN * s.n {
        put_zeros(out, at.0, s.words);
        put_programs(s, plan, out, at, true);
        return;
    }
    put_programs(s, plan, out, at, false);
}
