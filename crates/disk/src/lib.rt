// Files that are read whole and written whole, texts that are written piece by piece, the arguments of a program, and how it
// tells what became of its run.
#![tactic(auto)]

mod arguments;
mod blanks;
mod reading;
mod saving;

pub use arguments::{ARG_BYTES, arg, arg_count, say_long_arg, short_arg};
pub use blanks::blank;
pub use reading::{
    IMAGE_BYTES, IMAGE_WORDS, Start, load, load_image, load_start, load_words, open_source,
    read_full,
};
pub use saving::{save, save_at};
use std::fs::OpenOptions;
use std::io;
use std::io::{Error, Write};

// What became of a run, from the best on: its output is written, its input was refused, or could not be had, or its output could not
// be written.
#[derive(Clone, Copy, PartialEq, Eq, PartialOrd, Ord)]
pub enum Outcome {
    Done,
    Refused,
    Unread,
    Unwritten,
}

// Why a file could not be had or written: the system's error, or a reason that is told without asking for memory.
#[derive(Drop)]
pub(crate) enum Failure {
    System(Error),
    LongerThan(usize),
    OddBytes,
    LongPath,
}

impl From<Error> for Failure {
    fn from(error: Error) -> Failure {
        Failure::System(error)
    }
}

// Where a program tells what became of its run, if that is open.
const OUTCOME_PATH: &str = "/dev/fd/3";

// Writes a text to standard error.
pub fn say(rt: &HostRuntime, text: &[u8]) {
    let _ = rt.stderr().write_all(text);
}

// Writes a number to standard error.
pub fn say_number(rt: &HostRuntime, n: usize) {
    let _ = rt.stderr().print(n);
}

// Says what failed, and the system's text for its error.
pub fn fail(rt: &HostRuntime, what: &[u8], error: Error) {
    say(rt, what);
    say(rt, b": ");
    say_error(rt, error);
    say(rt, b"\n");
}

// Writes the text of an error to standard error, without its number.
fn say_error(rt: &HostRuntime, error: Error) {
    let Ok(text) = format!(in rt.alloc(); "{error}") else {
        return;
    };
    match text.split_once(" (os error ") {
        Some((words, _)) => say(rt, words.as_bytes()),
        None => say(rt, text.as_bytes()),
    }
}

// Says what failed, and why.
pub(crate) fn fail_by(rt: &HostRuntime, what: &[u8], failure: Failure) {
    match failure {
        Failure::System(error) => fail(rt, what, error),
        Failure::LongerThan(most) => {
            say(rt, what);
            say(rt, b": longer than ");
            say_number(rt, most);
            say(rt, b" bytes\n");
        }
        Failure::OddBytes => {
            say(rt, what);
            say(rt, b": an odd count of bytes\n");
        }
        Failure::LongPath => {
            say(rt, what);
            say(rt, b": the path is too long\n");
        }
    }
}

// The word of an outcome.
fn word_of(outcome: Outcome) -> &'static [u8] {
    match outcome {
        Outcome::Done => b"done\n",
        Outcome::Refused => b"refused\n",
        Outcome::Unread => b"unread\n",
        Outcome::Unwritten => b"unwritten\n",
    }
}

// Tells what became of a run by one word on a descriptor of its own: a program has no exit status.
pub fn tell(rt: &HostRuntime, outcome: Outcome) {
    if let Ok(mut file) = OpenOptions::new().append(true).open(rt, OUTCOME_PATH) {
        let _ = file.write_all(word_of(outcome));
    }
}

// Says that the arguments are not those of the program; whoever starts it knows how it is used.
pub fn misused(rt: &HostRuntime) -> Outcome {
    say(rt, b"a wrong count of arguments\n");
    Outcome::Unread
}

// What became of a run that wrote to standard output; where that failed, it is said.
pub fn ended(rt: &HostRuntime, written: io::Result<()>) -> Outcome {
    match written {
        Ok(()) => Outcome::Done,
        Err(error) => {
            fail(rt, b"standard output", error);
            Outcome::Unwritten
        }
    }
}
