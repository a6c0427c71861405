// The words for what is refused, and for what a task is and does: each is said here, once.
#![tactic(auto)]

mod rules;

use breaches::broken_rule;
use causes::{EventCause, PlanCause, plan_cause};
use paper::{
    ASK_INPUT, BAD_ORDER, BAD_SERVICE, NO_ERROR, NO_SUCH_TASK, NOTHING_PENDING, OUTSIDE, READY,
    RECEIVE, Refusal, SEND, WAITS_FOR_INPUT, WAITS_FOR_OUTPUT, WAITS_TO_RECEIVE, WAITS_TO_SEND,
    ZERO_DIVISOR,
};
use rules::Fault;
use std::fmt::{Display, Formatter};
use std::io::Write;
use std::{fmt, io};

// The words for a refusal; a refusal is of the kernel, which has no texts.
fn refusal_words(r: Refusal) -> &'static str {
    match r {
        Refusal::TooShort => "image under 18 words",
        Refusal::NotMarked => "mark or edition wrong",
        Refusal::OutOfRange => "the number of tasks, the slice or a capacity out of range",
        Refusal::NotPacked => "an offset is not the packed one",
        Refusal::WrongSegments => {
            "a segment or the total is wrong, or the image has another length"
        }
        Refusal::RuleBroken => "another rule of the image is broken",
        Refusal::MalformedEvent => "event malformed, or a list not a multiple of three words",
        Refusal::InputFull => "input for a full input buffer",
        Refusal::PortIdle => "output done on an idle port",
        Refusal::BadPlan => "the plan is malformed, or its image has more than 32768 words",
        Refusal::WrongTarget => {
            "the target has another length than the plan's image, or not 97 counts"
        }
        Refusal::CountFull => "a count of ticks is at its end",
    }
}

// The words for an error, which an image holds as a number.
fn error_words(error: u16) -> &'static str {
    match error {
        OUTSIDE => "address outside the segment",
        BAD_ORDER => "unknown op or bad field",
        BAD_SERVICE => "unknown service",
        ZERO_DIVISOR => "zero divisor",
        NO_SUCH_TASK => "no such task",
        _ => "output of more than 255",
    }
}

// A service that is pending, by its number.
#[derive(Clone, Copy)]
pub struct Service(pub u16);

impl Display for Service {
    fn fmt<W: fmt::Write>(&self, f: &mut Formatter<W>) -> fmt::Result {
        f.write_str(match self.0 {
            NOTHING_PENDING => "nothing",
            SEND => "send",
            RECEIVE => "receive",
            ASK_INPUT => "input",
            _ => "output",
        })
    }
}

// The status of a task, by its number, with the peer and the error of the task.
#[derive(Clone, Copy)]
pub struct Status {
    pub status: u16,
    pub peer: u16,
    pub error: u16,
}

// A ready task with an error is stopped at its next tick.
impl Display for Status {
    fn fmt<W: fmt::Write>(&self, f: &mut Formatter<W>) -> fmt::Result {
        let Status {
            status,
            peer,
            error,
        } = *self;
        let words = error_words(error);
        match status {
            READY if error == NO_ERROR => f.write_str("ready"),
            READY => write!(f, "ready, to be stopped by error {error} ({words})"),
            WAITS_TO_SEND => write!(f, "waits to send to task {peer}"),
            WAITS_TO_RECEIVE => write!(f, "waits for a message from task {peer}"),
            WAITS_FOR_INPUT => f.write_str("waits for input"),
            WAITS_FOR_OUTPUT => f.write_str("waits for output"),
            _ => write!(f, "stopped by error {error} ({words})"),
        }
    }
}

// Writes to standard error that what a path names is refused, with the number and why.
fn write_refused<D: Display + Drop>(
    rt: &HostRuntime,
    path: &[u8],
    number: u16,
    why: D,
) -> io::Result<()> {
    rt.stderr().write_all(path)?;
    eprintln!(rt; ": refused {number}: {why}")
}

// Says on standard error that what a path names is refused, with the number and why.
pub fn say_refused<D: Display + Drop>(rt: &HostRuntime, path: &[u8], number: u16, why: D) {
    let _ = write_refused(rt, path, number, why);
}

// Says on standard error that an image is refused, and why: where a rule is broken, the first one and what breaks it.
pub fn say_refused_image(rt: &HostRuntime, path: &[u8], im: &[u16], r: Refusal) {
    say_refused(rt, path, u16::from(r), Fault(broken_rule(im)));
}

// Why a plan's file is refused, of which the first words are given, and whether it has an odd count of bytes.
fn file_cause(plan: &[u16], odd: bool) -> PlanCause {
    if odd {
        return PlanCause::OddBytes;
    }
    plan_cause(plan)
}

// Says on standard error that the plan of a file is refused, and why.
pub fn say_refused_plan(rt: &HostRuntime, path: &[u8], plan: &[u16], odd: bool, r: Refusal) {
    say_refused(rt, path, u16::from(r), file_cause(plan, odd));
}

// Writes to standard error that the event of a number is refused, and why; the cause is that of a malformed one.
fn write_refused_event(
    rt: &HostRuntime,
    path: &[u8],
    n: u64,
    r: Refusal,
    cause: EventCause,
) -> io::Result<()> {
    rt.stderr().write_all(path)?;
    let number = u16::from(r);
    match r {
        Refusal::MalformedEvent => eprintln!(rt; ": event {n}: refused {number}: {cause}"),
        _ => eprintln!(rt; ": event {n}: refused {number}: {}", refusal_words(r)),
    }
}

// Says on standard error that the event of a number is refused, and why; the cause is that of a malformed one.
pub fn say_refused_event(rt: &HostRuntime, path: &[u8], n: u64, r: Refusal, cause: EventCause) {
    let _ = write_refused_event(rt, path, n, r, cause);
}
