// A plan: its verdict, its shape and its size.
#![tactic(auto)]

ghost use Rattle.std.specs.Prelude.{◌≡◌, ◌≤◌, Ok, true, false, MatchOption};
ghost use Rattle.paper.specs.Plans.{plan_tasks, segment_length, program_length, segment_words, plan_shape as shape_planned};
ghost use Rattle.paper.specs.Image.{most_tasks, start, total};
ghost use Rattle.paper.specs.Tests.{every};
ghost use Rattle.paper.specs.Numbers.{pair_right, plan_broken, check_plan as verdict_on_plan};
ghost use Rattle.paper.specs.Promises.{Measures};
ghost use Rattle.paper.specs.declared.Part.TheVariants.{Segments};
ghost use Rattle.laws.specs.Layout.{Ranged};
ghost use Rattle.plans.specs.Sizes.{most_planned, Summed, SizesOf, Packed};

use headers::{header_word, offsets, out_of_range, word_or_zero};
use paper::{
    LEADING_WORDS, MOST_WORDS, OFFSETS, PAIR_WORDS, PLAN_CI_AT, PLAN_CM_AT, PLAN_CO_AT,
    PLAN_SLICE_AT, PLAN_TASKS_AT, Place, Refusal, SEGMENTS, Shape, Task,
};

// What the pairs of a plan add up to: the words of all segments, and where the last program ends.
#[derive(Clone, Copy)]
struct Sums {
    words: usize,
    end: usize,
}

// A task's segment length.
pub fn length_of(plan: &[u16], i: Task) -> u16
    ensures { result ≡ segment_length plan.now i.0 }
{
    word_or_zero(plan, LEADING_WORDS + PAIR_WORDS * i.0 as usize)
}

// A task's program length.
pub fn program_of(plan: &[u16], i: Task) -> u16
    ensures { result ≡ program_length plan.now i.0 }
{
    word_or_zero(plan, LEADING_WORDS + 1 + PAIR_WORDS * i.0 as usize)
}

// What the pairs of a plan of n tasks add up to, where each is right.
fn add_up(plan: &[u16], n: usize) -> Option<Sums>
    requires n_le_most_tasks { n ≤ most_tasks }
    requires n_value { n ≡ plan_tasks plan.now }
    ensures { MatchOption result (every n (pair_right plan.now) ≡ false) (λ sums. Summed plan.now n true sums.words sums.end) }
{
    let mut right = true;
    let mut words: usize = 0;
    let mut end = LEADING_WORDS + PAIR_WORDS * n;
    for k in 0..n {
        let i = Task(k as u16);
        let length = length_of(plan, i);
        let program = program_of(plan, i);
        right = right & ((1 <= length) & (program <= length));
        words += length as usize;
        end += program as usize;
    }
    if right {
        return Some(Sums { words, end });
    }
    None
}

// The words of all segments of a plan of n tasks, whether its pairs are right or not.
fn words_of(plan: &[u16], n: usize) -> usize
    requires { n ≤ most_tasks }
    ensures value { result ≡ segment_words plan.now n }
    ensures small { result ≤ most_planned }
{
    let mut words: usize = 0;
    for k in 0..n {
        words += length_of(plan, Task(k as u16)) as usize;
    }
    words
}

// N, S and the capacities of a plan; the offsets and the words of the segments are left 0.
fn sizes_of(plan: &[u16]) -> Shape
    ensures { SizesOf plan.now result }
{
    Shape {
        n: header_word(plan, PLAN_TASKS_AT),
        slice: word_or_zero(plan, PLAN_SLICE_AT),
        ci: header_word(plan, PLAN_CI_AT),
        co: header_word(plan, PLAN_CO_AT),
        cm: header_word(plan, PLAN_CM_AT),
        starts: [0; OFFSETS],
        words: 0,
    }
}

// The shape of a plan in range whose segments have so many words.
fn shape_with(plan: &[u16], words: usize) -> Shape
    requires ranged { Ranged (shape_planned plan.now) }
    requires words_value { (words ≡ segment_words plan.now (plan_tasks plan.now)) × (words ≤ most_planned) }
    ensures value { result ≡ shape_planned plan.now }
    ensures packed { Packed result }
{
    let sizes = sizes_of(plan);
    let starts = offsets(sizes);
    Shape {
        n: sizes.n,
        slice: sizes.slice,
        ci: sizes.ci,
        co: sizes.co,
        cm: sizes.cm,
        starts,
        words,
    }
}

// The shape that a plan in range gives.
pub fn shape_of_plan(plan: &[u16]) -> Shape
    requires { Ranged (shape_planned plan.now) }
    ensures value { result ≡ shape_planned plan.now }
    ensures packed { Packed result }
{
    shape_with(plan, words_of(plan, header_word(plan, PLAN_TASKS_AT)))
}

// T of a packed shape.
pub fn total_of(s: Shape) -> usize
    requires { Packed s }
    ensures { result ≡ total s }
{
    let starts = s.starts;
    starts[SEGMENTS] + s.words
}

// Where the segments of a shape in range start.
fn first_segment(s: Shape) -> Place
    requires { Ranged s }
    ensures { result.0 ≡ start s Segments }
{
    let starts = offsets(s);
    Place(starts[SEGMENTS])
}

// The shape of an accepted plan whose T is known.
pub fn shape_sized(plan: &[u16], whole: usize) -> Shape
    requires plan_value { verdict_on_plan plan.now ≡ Ok tt }
    requires whole_value { whole ≡ total (shape_planned plan.now) }
    ensures value { result ≡ shape_planned plan.now }
    ensures packed { Packed result }
{
    let first = first_segment(sizes_of(plan));
    shape_with(plan, whole - first.0)
}

// Whether a plan of n tasks in range, whose right pairs add up to all and whose T is known, breaks another rule of plans.
fn is_broken(plan: &[u16], n: usize, all: Sums, whole: usize) -> bool
    requires n_le_most_tasks { (n ≤ most_tasks) × (n ≡ plan_tasks plan.now) }
    requires summed { Summed plan.now n true all.words all.end }
    requires whole_value { whole ≡ total (shape_planned plan.now) }
    ensures { result ≡ plan_broken plan.now }
{
    (plan.len() < LEADING_WORDS + PAIR_WORDS * n) | (plan.len() != all.end) | (MOST_WORDS < whole)
}

// How many words a plan needs.
pub fn size(plan: &[u16]) -> Result<usize, Refusal>
    ensures { Measures plan.now result }
{
    if plan.len() < LEADING_WORDS {
        return Err(Refusal::BadPlan);
    }
    let sizes = sizes_of(plan);
    if out_of_range(sizes) {
        return Err(Refusal::OutOfRange);
    }
    let Some(all) = add_up(plan, sizes.n) else {
        return Err(Refusal::BadPlan);
    };
    let whole = first_segment(sizes).0 + all.words;
    if is_broken(plan, sizes.n, all, whole) {
        return Err(Refusal::BadPlan);
    }
    Ok(whole)
}

// The verdict on a plan.
pub fn verdict(plan: &[u16]) -> Result<(), Refusal>
    ensures { result ≡ verdict_on_plan plan.now }
{
    size(plan)?;
    Ok(())
}
