// The public call of `breaches` for programs in C and Rust, in numbers. It requires nothing.
ghost use Rattle.std.specs.Prelude.{◌≡◌};
ghost use Rattle.kernel_c.specs.Breaches.{rule_told, queue_told, subject_told, no_rule, broken_numbers};
ghost use Rattle.kernel_c.specs.Promises.{TellsBrokenC};

use crate::looks::NOT_THERE;
use breaches::{Rule, Subject, broken_rule, rule_number};
use paper::{NOT_REFUSED, Queue, Refusal};
use views::{INPUT_BUFFER, MESSAGE_BUFFER, OUTPUT_BUFFER, READY_QUEUE};

// The number of the check; where it is 6, the first broken rule, and the task or queue that breaks it.
#[repr(C)]
#[derive(Clone, Copy)]
pub struct BrokenNumbers {
    pub number: u16,
    pub rule: u16,
    pub queue: u16,
    pub i: u16,
    pub j: u16,
}

// A broken rule, and what breaks it.
fn tell_rule(rule: u16, queue: u16, i: u16, j: u16) -> BrokenNumbers
    ensures { result ≡ rule_told rule queue i j }
{
    BrokenNumbers {
        number: u16::from(Refusal::RuleBroken),
        rule: rule,
        queue: queue,
        i: i,
        j: j,
    }
}

// A rule that a queue breaks.
fn tell_queue(rule: u16, q: Queue) -> BrokenNumbers
    ensures { result ≡ queue_told rule q }
{
    match q {
        Queue::Ready => tell_rule(rule, READY_QUEUE, 0, 0),
        Queue::Input(i) => tell_rule(rule, INPUT_BUFFER, i.0, 0),
        Queue::Output(i) => tell_rule(rule, OUTPUT_BUFFER, i.0, 0),
        Queue::Message(i, j) => tell_rule(rule, MESSAGE_BUFFER, i.0, j.0),
    }
}

// A rule that a task, a queue or the clock breaks.
fn tell_subject(rule: u16, x: Subject) -> BrokenNumbers
    ensures { result ≡ subject_told rule x }
{
    match x {
        Subject::Clock => tell_rule(rule, NOT_THERE, NOT_THERE, NOT_THERE),
        Subject::Task(i) => tell_rule(rule, NOT_THERE, i.0, NOT_THERE),
        Subject::Queue(q) => tell_queue(rule, q),
    }
}

// A number with no rule.
fn tell_number(number: u16) -> BrokenNumbers
    ensures { result ≡ no_rule number }
{
    BrokenNumbers {
        number: number,
        rule: NOT_THERE,
        queue: NOT_THERE,
        i: NOT_THERE,
        j: NOT_THERE,
    }
}

// What is told of an image, in numbers.
fn tell_broken(found: Result<Option<(Rule, Subject)>, Refusal>) -> BrokenNumbers
    ensures { result ≡ broken_numbers found }
{
    match found {
        Ok(Some((rule, x))) => tell_subject(rule_number(rule), x),
        Ok(None) => tell_number(NOT_REFUSED),
        Err(r) => tell_number(u16::from(r)),
    }
}

// The first broken rule of an image, and the first task or queue that breaks it.
#[unsafe(no_mangle)]
pub extern "C" fn kernel_broken_rule(image: &[u16]) -> BrokenNumbers
    ensures { TellsBrokenC image.now result }
{
    tell_broken(broken_rule(image))
}
