// Checking an image: numbers 1 to 6.
#![tactic(auto)]

ghost use Rattle.std.specs.Prelude.{◌≡◌, true, ◌<◌};
ghost use Rattle.paper.specs.Queues.{held};
ghost use Rattle.paper.specs.Tests.{every_task, buffers_hold as do_buffers_hold, characters as are_characters, task_holds as does_task_hold, clock_holds as does_clock_hold, rules_hold as do_rules_hold};
ghost use Rattle.paper.specs.Image.{shape_of as shape_given};
ghost use Rattle.paper.specs.Numbers.{check as verdict_on};
ghost use Rattle.paper.specs.Promises.{Checks};
ghost use Rattle.paper.specs.declared.Queue.TheVariants.{Ready};
ghost use Rattle.laws.specs.Sound.{Sized};
ghost use Rattle.queue_rules.specs.ReadyCounts.{AllFound};
ghost use Rattle.inspect.specs.Inspects.{Inspects};

use headers::{not_packed, out_of_range, shape_of, word_or_zero, wrong_segments};
use paper::{
    CLOCK_AT, Cell, EDITION, EDITION_AT, HEADER_WORDS, MARK, MARK_AT, MOST_TASKS, NOT_REFUSED,
    Part, Queue, Refusal, Shape, Task,
};
use places::word_of;
use queue_rules::{buffers_hold, count_ready, ready_holds};
use task_rules::{flags_hold, is_empty, port_holds, readied_once, status_holds};

// Whether the rules of task i hold, where those of its buffers do; found tells how often the ready queue holds each task.
fn task_holds(s: Shape, im: &[u16], i: Task, found: &[u8; MOST_TASKS]) -> bool
    requires sized { Sized s im.now }
    requires i_lt_n { i.0 < s.n }
    requires i_value { do_buffers_hold s im.now i ≡ true }
    requires i_value_2 { are_characters s im.now i ≡ true }
    requires all_found { AllFound found.now (held s im.now Ready) }
    ensures { result ≡ does_task_hold s im.now i }
{
    readied_once(s, im, i, found)
        & port_holds(s, im, i)
        & flags_hold(s, im, i)
        & status_holds(s, im, i)
}

// Whether the rules of every task hold, where those of all buffers do.
fn tasks_hold(s: Shape, im: &[u16], found: &[u8; MOST_TASKS]) -> bool
    requires sized { Sized s im.now }
    requires im_value { every_task s (do_buffers_hold s im.now) ≡ true }
    requires im_value_2 { every_task s (are_characters s im.now) ≡ true }
    requires all_found { AllFound found.now (held s im.now Ready) }
    ensures { result ≡ every_task s (does_task_hold s im.now) }
{
    for k in 0..s.n {
        if !task_holds(s, im, Task(k as u16), found) {
            return false;
        }
    }
    true
}

// Whether the clock obeys its rules.
fn clock_holds(s: Shape, im: &[u16]) -> bool
    requires { Sized s im.now }
    ensures { result ≡ does_clock_hold s im.now }
{
    let clock = word_of(
        s,
        im,
        Cell {
            part: Part::Header,
            row: 0,
            column: CLOCK_AT,
        },
    );
    (clock <= s.slice) & (!is_empty(s, im, Queue::Ready) | (clock == 0))
}

// Whether all rules of "What an image must hold" hold.
fn rules_hold(s: Shape, im: &[u16]) -> bool
    requires { Sized s im.now }
    ensures { result ≡ do_rules_hold s im.now }
{
    if !ready_holds(s, im) {
        return false;
    }
    if !clock_holds(s, im) {
        return false;
    }
    if !buffers_hold(s, im) {
        return false;
    }
    let mut found: [u8; MOST_TASKS] = [0; MOST_TASKS];
    if !count_ready(s, im, &mut found) {
        return false;
    }
    tasks_hold(s, im, &found)
}

// Inspects an image once, for whoever goes on with it: the shape that its header gives, or the first of the refusals 1 to 6.
pub fn good_shape(im: &[u16]) -> Result<Shape, Refusal>
    ensures { Inspects im.now result }
{
    if im.len() < HEADER_WORDS {
        return Err(Refusal::TooShort);
    }
    let marked = (word_or_zero(im, MARK_AT) == MARK) & (word_or_zero(im, EDITION_AT) == EDITION);
    if !marked {
        return Err(Refusal::NotMarked);
    }
    let s = shape_of(im);
    if out_of_range(s) {
        return Err(Refusal::OutOfRange);
    }
    if not_packed(s) {
        return Err(Refusal::NotPacked);
    }
    if wrong_segments(s, im) {
        return Err(Refusal::WrongSegments);
    }
    if !rules_hold(s, im) {
        return Err(Refusal::RuleBroken);
    }
    Ok(s)
}

// Whether an image is good or refused, and the shape that its header gives, which a refused one has as well.
#[derive(Clone, Copy)]
pub struct Inspected {
    pub verdict: Result<(), Refusal>,
    pub shape: Shape,
}

// Inspects an image for who goes on with the shape of one that is refused.
pub fn inspect(im: &[u16]) -> Inspected
    ensures { (result.verdict ≡ verdict_on im.now) × (result.shape ≡ shape_given im.now) }
{
    let verdict = match good_shape(im) {
        Ok(_) => Ok(()),
        Err(r) => Err(r),
    };
    Inspected {
        verdict,
        shape: shape_of(im),
    }
}

// The number of an image's refusal, 1 to 6, or 0 where it is good.
pub fn check(im: &[u16]) -> u16
    ensures { Checks im.now result }
{
    match good_shape(im) {
        Ok(_) => NOT_REFUSED,
        Err(r) => u16::from(r),
    }
}
