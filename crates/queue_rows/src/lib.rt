// Queues as rows of an image: the tests of one that begins at a place, and of many that follow one another.
#![tactic(auto)]

ghost use Rattle.std.specs.Prelude.{◌≡◌, true, ◌+◌, ◌%◌, ◌<◌, ◌≤◌, length};
ghost use Rattle.paper.specs.Image.{lead, most_capacity, most_words};
ghost use Rattle.paper.specs.Tests.{implies};
ghost use Rattle.paper.specs.declared.Place.{Place};
ghost use Rattle.four_words.specs.FourWords.{Marks};
ghost use Rattle.queue_rows.specs.BufferRows.{leads, row_queued, row_words_below, row_cleared, row_typed, SlotsTyped, row_right as is_right, Unused, RowsBetween, RightUpTo, AllRight};

use four_words::{MARKS, SIXTEEN, all_bits, four, mark, sixteen_free, slots_clear};
use paper::{CAPACITY, COUNT, LEAD_WORDS, MOST_CAPACITY, MOST_CHARACTER, Place, TAIL, WORD_END};

// Words of free slots are below this.
pub const ABOVE_ZERO: usize = 1;

// Characters are below this.
pub const CHARACTERS: usize = MOST_CHARACTER as usize + 1;

// The bits that no character has, in four words.
const HIGH_BITS: usize = 18374966859414961920;

// The slot that so many slots from the front come to, where they go past the end at most once.
pub fn wrapped(slots: usize, capacity: usize) -> usize
    requires { slots < capacity + capacity }
    ensures { result ≡ slots % capacity }
{
    if slots < capacity {
        return slots;
    }
    slots - capacity
}

// Whether a queue's four leading words are right, where the header gives the capacity given.
pub fn leads_right(given: usize, head: u16, tail: u16, count: u16, capacity: u16) -> bool
    ensures { result ≡ leads given head tail count capacity }
{
    let first = usize::from(head);
    let end = usize::from(tail);
    let words = usize::from(count);
    if usize::from(capacity) != given {
        return false;
    }
    if given <= first {
        return false;
    }
    if given <= end {
        return false;
    }
    if given < words {
        return false;
    }
    (first + words == end) | (first + words == end + given)
}

// Whether the row at a place is a queue of the capacity given, whatever its slots hold.
fn row_queued(im: &[u16], p: Place, given: usize) -> bool
    requires { p.0 + lead ≤ length im.now }
    ensures { result ≡ row_queued im.now p given }
{
    let at = p.0;
    leads_right(
        given,
        im[at],
        im[at + TAIL],
        im[at + COUNT],
        im[at + CAPACITY],
    )
}

// Whether the row at a place is a queue never used, of the capacity given.
fn row_unused(im: &[u16], p: Place, given: usize) -> bool
    requires given_nonzero { (0 < given) × (given ≤ most_capacity) }
    requires given_in_bounds { p.0 + lead + given ≤ length im.now }
    ensures { result ≡ true → Unused im.now p given }
{
    let at = p.0;
    if four(im, at) != WORD_END * (WORD_END * (WORD_END * given)) {
        return false;
    }
    slots_clear(im, at + LEAD_WORDS, given)
}

// The first row from a place on that is not a queue never used, or the end.
fn first_used(im: &[u16], from: Place, end: Place, given: usize) -> Place
    requires given_nonzero { (0 < given) × (given ≤ most_capacity) }
    requires rows_between { RowsBetween from end given }
    requires end_in_bounds { (end.0 ≤ length im.now) × (length im.now ≤ most_words) }
    ensures { (messages : Place) → RightUpTo im.now from end given messages result }
{
    let width = LEAD_WORDS + given;
    let mut at = from;
    // Where a row is used the search begins anew, and step_by divides each time it begins; a check of a busy image took a fifth more.
    while at.0 < end.0 {
        if !row_unused(im, at, given) {
            return at;
        }
        at = Place(at.0 + width);
    }
    at
}

// Whether so many words of the row at a place are below m, from a slot on.
pub fn slots_below(im: &[u16], p: Place, given: usize, from: usize, count: usize, m: usize) -> bool
    requires from_lt_given { (from < given) × (given ≤ most_capacity) }
    requires given_in_bounds { p.0 + lead + given ≤ length im.now }
    ensures { result ≡ row_words_below im.now p given from count m }
{
    let first = p.0 + LEAD_WORDS;
    let mut slot = from;
    for _ in 0..count {
        if m <= usize::from(im[first + slot]) {
            return false;
        }
        slot = wrapped(slot + 1, given);
    }
    true
}

// Whether the words that a row holds are characters, where it is typed.
fn words_typed(im: &[u16], p: Place, given: usize, typed: bool) -> bool
    requires given_le_most_capacity { given ≤ most_capacity }
    requires given_in_bounds { p.0 + lead + given ≤ length im.now }
    requires given_value { row_queued im.now p given ≡ true }
    ensures { result ≡ implies typed (row_typed im.now p given) }
{
    if !typed {
        return true;
    }
    let at = p.0;
    slots_below(
        im,
        p,
        given,
        usize::from(im[at]),
        usize::from(im[at + COUNT]),
        CHARACTERS,
    )
}

// Whether the free slots of a row are 0.
fn free_zeros(im: &[u16], p: Place, given: usize) -> bool
    requires given_le_most_capacity { given ≤ most_capacity }
    requires given_in_bounds { p.0 + lead + given ≤ length im.now }
    requires given_value { row_queued im.now p given ≡ true }
    ensures { result ≡ row_cleared im.now p given }
{
    let at = p.0;
    let free = given - usize::from(im[at + COUNT]);
    slots_below(im, p, given, usize::from(im[at + TAIL]), free, ABOVE_ZERO)
}

// Whether the row at a place is right; where it is typed, its words are characters.
pub fn row_right(im: &[u16], p: Place, given: usize, typed: bool) -> bool
    requires given_le_most_capacity { given ≤ most_capacity }
    requires given_in_bounds { p.0 + lead + given ≤ length im.now }
    ensures { result ≡ is_right im.now p given typed }
{
    if !row_queued(im, p, given) {
        return false;
    }
    if !words_typed(im, p, given, typed) {
        return false;
    }
    free_zeros(im, p, given)
}

// Whether the free slots of a row of sixteen slots or more are 0.
fn free_clear(im: &[u16], p: Place, given: usize, marks: &[u16; MARKS]) -> bool
    requires le_given { (16 ≤ given) × (given ≤ most_capacity) }
    requires given_in_bounds { p.0 + lead + given ≤ length im.now }
    requires given_value { row_queued im.now p given ≡ true }
    requires marks { Marks marks.now given }
    ensures { result ≡ row_cleared im.now p given }
{
    let at = p.0;
    let first = at + LEAD_WORDS;
    let b = MOST_CAPACITY - usize::from(im[at]);
    let a = b + given - usize::from(im[at + COUNT]);
    let last = given - SIXTEEN;
    let bits = sixteen_free(im, first, marks, a, b)
        | sixteen_free(im, first + last, marks, a + last, b + last);
    bits == 0
}

// Whether all slots of a row of sixteen or more have characters, where it is typed.
fn slots_typed(im: &[u16], p: Place, given: usize, typed: bool) -> bool
    requires le_given { (16 ≤ given) × (given ≤ most_capacity) }
    requires given_in_bounds { p.0 + lead + given ≤ length im.now }
    ensures { SlotsTyped im.now p given typed result }
{
    if !typed {
        return true;
    }
    let at = p.0;
    all_bits(im, at + LEAD_WORDS, given) & HIGH_BITS == 0
}

// Whether a row of sixteen slots or more is right; where it is typed, its words are characters.
fn long_right(im: &[u16], p: Place, given: usize, typed: bool, marks: &[u16; MARKS]) -> bool
    requires le_given { (16 ≤ given) × (given ≤ most_capacity) }
    requires given_in_bounds { p.0 + lead + given ≤ length im.now }
    requires marks { Marks marks.now given }
    ensures { result ≡ is_right im.now p given typed }
{
    if !row_queued(im, p, given) {
        return false;
    }
    if !slots_typed(im, p, given, typed) {
        return false;
    }
    let at = p.0;
    if usize::from(im[at + COUNT]) == given {
        return true;
    }
    free_clear(im, p, given, marks)
}

// The first row from a place on that is not a queue never used, or the end; a row that holds a word is told at a look.
fn next_used(im: &[u16], from: Place, end: Place, given: usize) -> Place
    requires given_nonzero { (0 < given) × (given ≤ most_capacity) }
    requires rows_between { RowsBetween from end given }
    requires end_in_bounds { (end.0 ≤ length im.now) × (length im.now ≤ most_words) }
    ensures { (messages : Place) → RightUpTo im.now from end given messages result }
{
    let at = from.0;
    if at < end.0 && im[at + COUNT] != 0 {
        return from;
    }
    first_used(im, from, end, given)
}

// Whether the rows from a place on are right, of sixteen slots or more, by the marks of their capacity.
fn marked_rows(
    im: &[u16],
    from: Place,
    end: Place,
    given: usize,
    messages: Place,
    marks: &[u16; MARKS],
) -> bool
    requires le_given { (16 ≤ given) × (given ≤ most_capacity) }
    requires rows_between { RowsBetween from end given }
    requires end_in_bounds { (end.0 ≤ length im.now) × (length im.now ≤ most_words) }
    requires marks { Marks marks.now given }
    ensures { AllRight im.now from end given messages result }
{
    let width = LEAD_WORDS + given;
    let mut at = from;
    // The next row is where `next_used` tells, any number of rows on.
    while at.0 < end.0 {
        if !long_right(im, at, given, at.0 < messages.0, marks) {
            return false;
        }
        at = next_used(im, Place(at.0 + width), end, given);
    }
    true
}

// Whether the rows from a place on are right, of sixteen slots or more.
fn long_rows(im: &[u16], from: Place, end: Place, given: usize, messages: Place) -> bool
    requires le_given { (16 ≤ given) × (given ≤ most_capacity) }
    requires rows_between { RowsBetween from end given }
    requires end_in_bounds { (end.0 ≤ length im.now) × (length im.now ≤ most_words) }
    ensures { AllRight im.now from end given messages result }
{
    let mut marks: [u16; MARKS] = [0; MARKS];
    mark(&mut marks, 0);
    mark(&mut marks, MOST_CAPACITY + given);
    marked_rows(im, from, end, given, messages, &marks)
}

// Whether the rows from a place on are right, of fewer slots.
fn short_rows(im: &[u16], from: Place, end: Place, given: usize, messages: Place) -> bool
    requires given_nonzero { (0 < given) × (given ≤ most_capacity) }
    requires rows_between { RowsBetween from end given }
    requires end_in_bounds { (end.0 ≤ length im.now) × (length im.now ≤ most_words) }
    ensures { AllRight im.now from end given messages result }
{
    for at in (from.0..end.0).step_by(LEAD_WORDS + given) {
        if !row_right(im, Place(at), given, at < messages.0) {
            return false;
        }
    }
    true
}

// Whether the rows from a place up to another are right; those never used, which are most, are told at a look.
pub fn rows_right(im: &[u16], from: Place, end: Place, given: usize, messages: Place) -> bool
    requires given_nonzero { (0 < given) × (given ≤ most_capacity) }
    requires rows_between { RowsBetween from end given }
    requires end_in_bounds { (end.0 ≤ length im.now) × (length im.now ≤ most_words) }
    ensures { AllRight im.now from end given messages result }
{
    let used = first_used(im, from, end, given);
    if end.0 <= used.0 {
        return true;
    }
    if given < SIXTEEN {
        return short_rows(im, used, end, given, messages);
    }
    long_rows(im, used, end, given, messages)
}
