// The words for the rules of an image, and for what breaks one.
use crate::refusal_words;
use breaches::Subject;
use paper::{Queue, Refusal, Task};
use single_rules::Rule;
use std::fmt;
use std::fmt::{Display, Formatter};

// The words for how an image breaks a rule; a rule is of the kernel, which has no texts.
fn rule_words(rule: Rule) -> &'static str {
    match rule {
        Rule::Flags => "cc, error or pending out of range",
        Rule::Both => "error and pending both set",
        Rule::Status => "status over 5",
        Rule::Capacity => "capacity is not the header's",
        Rule::HeadTail => "head or tail not below the capacity",
        Rule::Length => "length over the capacity",
        Rule::Round => "tail is not where head and length lead",
        Rule::Characters => "holds a word over 255",
        Rule::Tasks => "holds a word that is no task",
        Rule::Readied => "not in the ready queue as its status asks",
        Rule::ClockRange => "clock over the slice",
        Rule::ClockIdle => "clock not 0 though no task is ready",
        Rule::Port => "busy over 1 or character over 255",
        Rule::IdlePort => "idle port with a character or output waiting",
        Rule::Sends => "does not stand as one that waits to send",
        Rule::Receives => "does not stand as one that waits to receive",
        Rule::Inputs => "does not stand as one that waits for input",
        Rule::Outputs => "does not stand as one that waits for output",
        Rule::Stopped => "stopped without an error",
        Rule::Peerless => "a peer though it waits for no task",
        Rule::FreeSlots => "old words in free slots",
    }
}

// What breaks a rule; the rules of the clock name it themselves.
fn write_subject<W: fmt::Write>(f: &mut Formatter<W>, subject: Subject) -> fmt::Result {
    match subject {
        Subject::Clock => Ok(()),
        Subject::Task(Task(t)) => write!(f, "task {t}: "),
        Subject::Queue(Queue::Ready) => f.write_str("ready queue: "),
        Subject::Queue(Queue::Input(Task(t))) => write!(f, "input of task {t}: "),
        Subject::Queue(Queue::Output(Task(t))) => write!(f, "output of task {t}: "),
        Subject::Queue(Queue::Message(Task(i), Task(j))) => {
            write!(f, "messages from {i} to {j}: ")
        }
    }
}

// Why an image is refused: where a rule is broken, that one and what breaks it.
#[derive(Clone, Copy)]
pub struct Fault(pub Result<Option<(Rule, Subject)>, Refusal>);

impl Display for Fault {
    fn fmt<W: fmt::Write>(&self, f: &mut Formatter<W>) -> fmt::Result {
        match self.0 {
            Ok(Some((rule, subject))) => {
                write_subject(f, subject)?;
                f.write_str(rule_words(rule))
            }
            Err(r) => f.write_str(refusal_words(r)),
            Ok(None) => Ok(()),
        }
    }
}
