// Many words looked at together, four of them as one number.
#![tactic(auto)]

ghost use Rattle.std.specs.Prelude.{◌≡◌, true, ◌↔◌, ◌+◌, ◌≤◌, eqb, length};
ghost use Rattle.std.specs.List.{list_all};
ghost use Rattle.paper.specs.Image.{most_capacity};
ghost use Rattle.four_words.specs.FourWords.{lanes, four_at, Gathers, Clear, AllOrNone, Sieves, MarkedFrom};

use paper::{MOST_CAPACITY, WORD_END};

// A queue of so many slots or more is looked at sixteen slots at a time.
pub const SIXTEEN: usize = 16;

// Marks for the slots of a queue, for as many before them and as many after them.
pub const MARKS: usize = 3 * MOST_CAPACITY;

// A mark has all bits of a word.
const MARKED: u16 = 65535;

// Four words as one number, the first the lowest.
fn joined(a: u16, b: u16, c: u16, d: u16) -> usize
    ensures { result ≡ lanes a b c d }
{
    let high = usize::from(c) + WORD_END * usize::from(d);
    usize::from(a) + WORD_END * (usize::from(b) + WORD_END * high)
}

// Four words from a place on, as one number.
pub fn four(im: &[u16], at: usize) -> usize
    requires { at + 4 ≤ length im.now }
    ensures { result ≡ four_at im.now at }
{
    joined(im[at], im[at + 1], im[at + 2], im[at + 3])
}

// The bits of sixteen words from a place on, together.
fn sixteen(im: &[u16], at: usize) -> usize
    requires { at + 16 ≤ length im.now }
    ensures { Gathers im.now at 16 result }
{
    four(im, at) | four(im, at + 4) | four(im, at + 8) | four(im, at + 12)
}

// The bits of all words from a place on, sixteen or more, but no more than twice as many.
pub fn all_bits(im: &[u16], at: usize, words: usize) -> usize
    requires le_words { (16 ≤ words) × (words ≤ most_capacity) }
    requires words_in_bounds { at + words ≤ length im.now }
    ensures { Gathers im.now at words result }
{
    sixteen(im, at) | sixteen(im, at + words - SIXTEEN)
}

// Whether all words of a list are 0.
fn zeros(words: &[u16]) -> bool
    ensures { result ≡ list_all (λ w. eqb w 0) words.now }
{
    words.iter().all(|w| *w == 0)
}

// Whether all slots of a queue are 0, where they begin at a place.
pub fn slots_clear(im: &[u16], at: usize, given: usize) -> bool
    requires given_le_most_capacity { given ≤ most_capacity }
    requires given_in_bounds { at + given ≤ length im.now }
    ensures { (result ≡ true) ↔ Clear im.now at (at + given) }
{
    if SIXTEEN <= given {
        return all_bits(im, at, given) == 0;
    }
    zeros(&im[at..at + given])
}

// The bits that are set in four words though they must not be: those of words whose two marks differ.
fn four_free(im: &[u16], at: usize, marks: &[u16; MARKS], a: usize, b: usize) -> usize
    requires at_in_bounds { at + 4 ≤ length im.now }
    requires a_bound { (a + 4 ≤ 96) × (b + 4 ≤ 96) }
    requires all_or_none { AllOrNone marks.now }
    ensures { Sieves im.now at marks.now a b 4 result }
{
    four(im, at) & (four(marks, a) ^ four(marks, b))
}

// The same of sixteen words.
pub fn sixteen_free(im: &[u16], at: usize, marks: &[u16; MARKS], a: usize, b: usize) -> usize
    requires at_in_bounds { at + 16 ≤ length im.now }
    requires a_bound { (a + 16 ≤ 96) × (b + 16 ≤ 96) }
    requires all_or_none { AllOrNone marks.now }
    ensures { Sieves im.now at marks.now a b 16 result }
{
    let low = four_free(im, at, marks, a, b) | four_free(im, at + 4, marks, a + 4, b + 4);
    let high = four_free(im, at + 8, marks, a + 8, b + 8)
        | four_free(im, at + 12, marks, a + 12, b + 12);
    low | high
}

// Marks as many places from one on as a queue may have slots.
pub fn mark(marks: &mut [u16; MARKS], from: usize)
    requires marks_len { length marks.old ≡ 96 }
    requires most_capacity_bound { from + most_capacity ≤ 96 }
    ensures { MarkedFrom marks.old from most_capacity marks.new }
{
    marks[from..from + MOST_CAPACITY].fill(MARKED);
}
