// Why a plan is refused, and why an event is malformed, where one number stands for several causes; and the words for each.
#![tactic(auto)]

ghost use Rattle.std.specs.Prelude.{◌≤◌};

use headers::{header_word, word_or_zero};
use paper::{
    INPUT, LEADING_WORDS, MOST_CAPACITY, MOST_TASKS, MOST_WORDS, OUTPUT_DONE, PAIR_WORDS,
    PLAN_CI_AT, PLAN_CM_AT, PLAN_CO_AT, PLAN_SLICE_AT, PLAN_TASKS_AT, TICK, Task,
};
use plans::{length_of, program_of};
use std::fmt;
use std::fmt::{Display, Formatter};

// Why a plan is refused; a task is told by its number.
#[derive(Clone, Copy)]
pub enum PlanCause {
    OddBytes,
    FewWords,
    Tasks,
    Slice,
    Inputs,
    Outputs,
    Messages,
    FewPairs,
    EmptySegment(usize),
    LongProgram(usize),
    FewPrograms,
    WordsLeft,
    TooManyWords,
}

// Why an event is malformed.
#[derive(Clone, Copy)]
pub enum EventCause {
    Short,
    Kind,
    NoBareTick,
    Device,
    Character,
    DoneCharacter,
}

impl Display for PlanCause {
    fn fmt<W: fmt::Write>(&self, f: &mut Formatter<W>) -> fmt::Result {
        match *self {
            PlanCause::OddBytes => f.write_str("an odd count of bytes"),
            PlanCause::FewWords => f.write_str("under 5 words"),
            PlanCause::Tasks => f.write_str("the number of tasks is not 1..16"),
            PlanCause::Slice => f.write_str("the slice is not 1..65535"),
            PlanCause::Inputs => f.write_str("CI is not 1..32"),
            PlanCause::Outputs => f.write_str("CO is not 1..32"),
            PlanCause::Messages => f.write_str("CM is not 1..32"),
            PlanCause::FewPairs => f.write_str("a pair is missing"),
            PlanCause::EmptySegment(k) => write!(f, "task {k} has a segment of no words"),
            PlanCause::LongProgram(k) => {
                write!(f, "task {k} has a program that is longer than its segment")
            }
            PlanCause::FewPrograms => f.write_str("words of a program are missing"),
            PlanCause::WordsLeft => f.write_str("words are left over after the programs"),
            PlanCause::TooManyWords => f.write_str("the image has more than 32768 words"),
        }
    }
}

impl Display for EventCause {
    fn fmt<W: fmt::Write>(&self, f: &mut Formatter<W>) -> fmt::Result {
        f.write_str(match self {
            EventCause::Short => "the file ends within the event",
            EventCause::Kind => "a kind over 2",
            EventCause::NoBareTick => "a tick with a device or a character",
            EventCause::Device => "no such device",
            EventCause::Character => "a character over 255",
            EventCause::DoneCharacter => "output done with a character",
        })
    }
}

// Whether a word is no capacity.
fn is_no_capacity(n: u16) -> bool {
    n < 1 || MOST_CAPACITY < n as usize
}

// Which of the slice and the capacities of a plan is out of range.
fn range_cause(plan: &[u16]) -> Option<PlanCause> {
    if word_or_zero(plan, PLAN_SLICE_AT) < 1 {
        return Some(PlanCause::Slice);
    }
    if is_no_capacity(word_or_zero(plan, PLAN_CI_AT)) {
        return Some(PlanCause::Inputs);
    }
    if is_no_capacity(word_or_zero(plan, PLAN_CO_AT)) {
        return Some(PlanCause::Outputs);
    }
    if is_no_capacity(word_or_zero(plan, PLAN_CM_AT)) {
        return Some(PlanCause::Messages);
    }
    None
}

// What is wrong with a pair.
fn pair_cause(length: u16, program: u16, k: usize) -> Option<PlanCause> {
    if length < 1 {
        return Some(PlanCause::EmptySegment(k));
    }
    if length < program {
        return Some(PlanCause::LongProgram(k));
    }
    None
}

// Which of the pairs of a plan of n tasks is wrong.
fn pairs_cause(plan: &[u16], n: usize) -> Option<PlanCause>
    requires { n ≤ 16 }
{
    for k in 0..n {
        let i = Task(k as u16);
        let cause = pair_cause(length_of(plan, i), program_of(plan, i), k);
        if cause.is_some() {
            return cause;
        }
    }
    None
}

// How many words the programs of n tasks have by their pairs.
fn program_words(plan: &[u16], n: usize) -> usize
    requires { n ≤ 16 }
{
    let mut words: usize = 0;
    for k in 0..n {
        words += program_of(plan, Task(k as u16)) as usize;
    }
    words
}

// Why a plan whose pairs are right is refused, where so many words follow the pairs, and so many are asked for.
fn programs_cause(found: usize, asked: usize) -> PlanCause {
    if found < asked {
        if asked <= MOST_WORDS {
            return PlanCause::FewPrograms;
        }
        return PlanCause::TooManyWords;
    }
    if asked < found {
        return PlanCause::WordsLeft;
    }
    PlanCause::TooManyWords
}

// Why the pairs and programs of a refused plan of n tasks are wrong.
fn parts_cause(plan: &[u16], n: usize) -> PlanCause
    requires { n ≤ 16 }
{
    let programs = LEADING_WORDS + PAIR_WORDS * n;
    if plan.len() < programs {
        return PlanCause::FewPairs;
    }
    if let Some(cause) = pairs_cause(plan, n) {
        return cause;
    }
    programs_cause(plan.len() - programs, program_words(plan, n))
}

// Why a refused plan is refused. Of a plan that is longer than any good one the first words are enough.
pub fn plan_cause(plan: &[u16]) -> PlanCause {
    if plan.len() < LEADING_WORDS {
        return PlanCause::FewWords;
    }
    let n = header_word(plan, PLAN_TASKS_AT);
    if n < 1 || MOST_TASKS < n {
        return PlanCause::Tasks;
    }
    if let Some(cause) = range_cause(plan) {
        return cause;
    }
    parts_cause(plan, n)
}

// Why an event of three words is malformed, for an image with so many tasks.
pub fn event_cause(kind: u16, device: u16, tasks: usize) -> EventCause {
    if kind == TICK {
        return EventCause::NoBareTick;
    }
    if OUTPUT_DONE < kind {
        return EventCause::Kind;
    }
    if tasks <= device as usize {
        return EventCause::Device;
    }
    if kind == INPUT {
        return EventCause::Character;
    }
    EventCause::DoneCharacter
}
