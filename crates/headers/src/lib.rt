// The header of an image: the shape that it gives, and the tests of numbers 3, 4 and 5.
#![tactic(auto)]

ghost use Rattle.std.specs.Prelude.{◌≡◌, ◌&&◌, false, map, ◌+◌, ◌*◌, ◌<◌, ◌≤◌, eqb, get_or};
ghost use Rattle.paper.specs.Image.{offset_words, offsets as packed_offsets, header_word as word_of_header, shape_of as shape_given, cell, at as word_at, segment_start, total};
ghost use Rattle.paper.specs.Tests.{every_task};
ghost use Rattle.paper.specs.Numbers.{within as is_within, out_of_range as is_out_of_range, not_packed as is_not_packed, segment_right as is_segment_right, wrong_segments as has_wrong_segments};
ghost use Rattle.paper.specs.declared.Part.TheVariants.{SegmentTable};
ghost use Rattle.laws.specs.Sound.{Sized};
ghost use Rattle.laws.specs.Layout.{Ranged};

use paper::{
    BASE, CI_AT, CM_AT, CO_AT, Cell, ENTRY_WORDS, HEADER_WORDS, INPUT_BUFFERS_AT, LEAD_WORDS,
    LENGTH, MESSAGE_BUFFERS_AT, MOST_CAPACITY, MOST_SLICE, MOST_TASKS, MOST_WORDS, OFFSETS,
    OUTPUT_BUFFERS_AT, PORT_WORDS, PORTS_AT, Part, Place, READY_QUEUE_AT, SEGMENT_TABLE_AT,
    SEGMENTS_AT, SLICE_AT, STATUS_TABLE_AT, STATUS_WORDS, Shape, TASK_TABLE_AT, TASK_WORDS,
    TASKS_AT, TOTAL_AT, Task,
};
use places::{start_of, word_of};

// A word of a list, and 0 past its end.
pub fn word_or_zero(l: &[u16], k: usize) -> u16
    ensures { result ≡ get_or l.now k 0 }
{
    l.get(k).copied().unwrap_or(0)
}

// A word of the header, and 0 past the end of a list that is too short for one.
pub fn header_word(im: &[u16], k: usize) -> usize
    ensures { result ≡ word_of_header im.now k }
{
    usize::from(word_or_zero(im, k))
}

// The nine offsets in the header.
fn starts_of(im: &[u16]) -> [usize; OFFSETS]
    ensures { result ≡ map (word_of_header im.now) offset_words }
{
    [
        TASK_TABLE_AT,
        READY_QUEUE_AT,
        STATUS_TABLE_AT,
        INPUT_BUFFERS_AT,
        OUTPUT_BUFFERS_AT,
        MESSAGE_BUFFERS_AT,
        PORTS_AT,
        SEGMENT_TABLE_AT,
        SEGMENTS_AT,
    ]
    .map(|k| header_word(im, k))
}

// The shape that the header gives.
pub fn shape_of(im: &[u16]) -> Shape
    ensures { result ≡ shape_given im.now }
{
    Shape {
        n: header_word(im, TASKS_AT),
        slice: word_or_zero(im, SLICE_AT),
        ci: header_word(im, CI_AT),
        co: header_word(im, CO_AT),
        cm: header_word(im, CM_AT),
        starts: starts_of(im),
        words: header_word(im, TOTAL_AT).saturating_sub(header_word(im, SEGMENTS_AT)),
    }
}

// Whether x is lo..hi.
fn within(lo: usize, hi: usize, x: usize) -> bool
    ensures { result ≡ is_within lo hi x }
{
    (lo <= x) & (x <= hi)
}

// Whether N, S or a capacity is out of range.
pub fn out_of_range(s: Shape) -> bool
    ensures { result ≡ is_out_of_range s }
{
    !(within(1, MOST_TASKS, s.n)
        & within(1, MOST_SLICE, usize::from(s.slice))
        & within(1, MOST_CAPACITY, s.ci)
        & within(1, MOST_CAPACITY, s.co)
        & within(1, MOST_CAPACITY, s.cm))
}

// Where a part that starts at a place ends.
fn end_of(start: Place, rows: usize, width: usize) -> Place
    requires { (start.0 ≤ 131072) × (rows ≤ 256) × (width ≤ 36) }
    ensures { (result.0 ≡ start.0 + rows * width) × (result.0 ≤ start.0 + 9216) }
{
    Place(start.0 + rows * width)
}

// The packed offsets of a shape in range.
pub fn offsets(s: Shape) -> [usize; OFFSETS]
    requires { Ranged s }
    ensures { result ≡ packed_offsets s }
{
    let n = s.n;
    let tasks = Place(HEADER_WORDS);
    let ready = end_of(tasks, n, TASK_WORDS);
    let status = end_of(ready, 1, LEAD_WORDS + n);
    let inputs = end_of(status, n, STATUS_WORDS);
    let outputs = end_of(inputs, n, LEAD_WORDS + s.ci);
    let messages = end_of(outputs, n, LEAD_WORDS + s.co);
    let ports = end_of(messages, n * n, LEAD_WORDS + s.cm);
    let table = end_of(ports, n, PORT_WORDS);
    let segments = end_of(table, n, ENTRY_WORDS);
    [
        tasks.0, ready.0, status.0, inputs.0, outputs.0, messages.0, ports.0, table.0, segments.0,
    ]
}

// Whether an offset is not the packed one.
pub fn not_packed(s: Shape) -> bool
    requires { Ranged s }
    ensures { result ≡ is_not_packed s }
{
    s.starts != offsets(s)
}

// A word of the entry of task i in the segment table.
fn entry_word(s: Shape, im: &[u16], i: Task, column: usize) -> u16
    requires sized { Sized s im.now }
    requires i_lt_n { (i.0 < s.n) × (column < 2) }
    ensures { result ≡ word_at s im.now (cell SegmentTable i.0 column) }
{
    word_of(
        s,
        im,
        Cell {
            part: Part::SegmentTable,
            row: usize::from(i.0),
            column,
        },
    )
}

// Whether the segment of task i, which is to start at a place, has its base and a length.
fn segment_right(s: Shape, im: &[u16], i: Task, start: Place) -> bool
    requires sized { Sized s im.now }
    requires i_lt_n { i.0 < s.n }
    requires start_value { start.0 ≡ segment_start s im.now i.0 }
    ensures { result ≡ is_segment_right s im.now i }
{
    let base = usize::from(entry_word(s, im, i, BASE));
    let length = entry_word(s, im, i, LENGTH);
    base == start.0 && 1 <= length
}

// Whether the segments follow one another in task order, and the last ends at T.
fn segments_right(s: Shape, im: &[u16]) -> bool
    requires { Sized s im.now }
    ensures { result ≡ (every_task s (is_segment_right s im.now) && eqb (segment_start s im.now s.n) (total s)) }
{
    let mut end = start_of(s, Part::Segments);
    for k in 0..s.n {
        let i = Task(k as u16);
        if !segment_right(s, im, i, end) {
            return false;
        }
        end = Place(end.0 + usize::from(entry_word(s, im, i, LENGTH)));
    }
    end.0 == im.len()
}

// Whether a segment's base or length, or T, is wrong, T is over 32768, or the image is not T words.
pub fn wrong_segments(s: Shape, im: &[u16]) -> bool
    requires s_value { s ≡ shape_given im.now }
    requires ranged { Ranged s }
    requires s_value_2 { is_not_packed s ≡ false }
    ensures { result ≡ has_wrong_segments s im.now }
{
    let total = header_word(im, TOTAL_AT);
    if total < header_word(im, SEGMENTS_AT) {
        return true;
    }
    if MOST_WORDS < total {
        return true;
    }
    if im.len() != total {
        return true;
    }
    !segments_right(s, im)
}
