// Prints a program, or the tasks of an image, as text on standard output: the argument is the program's file; or the arguments are
// `--image`, the image's file, and a task where one alone is asked for.
#![tactic(auto)]

ghost use Rattle.laws.specs.Sound.{Sound};

use disk::{
    ARG_BYTES, Outcome, arg_count, blank, ended, load_words, misused, say, short_arg, tell,
};
use inspect::good_shape;
use joining::read_word;
use paper::{Shape, Task};
use printing::print;
use saying::{say_refused, say_refused_image};
use showing::{TEXT_BYTES, show_task};
use std::io;
use std::io::Write;

// How many arguments there are with a program, with an image, and with a task of one, the program's own name among them.
const PROGRAM_ARGUMENTS: usize = 2;

const IMAGE_ARGUMENTS: usize = 3;

const TASK_ARGUMENTS: usize = 4;

// Where each argument stands.
const PROGRAM_AT: usize = 1;

const IMAGE_AT: usize = 2;

const TASK_AT: usize = 3;

// The most of a file that is read, into arrays: the memory of the programs is fixed.
const FILE_BYTES: usize = 524288;

const FILE_WORDS: usize = 262144;

// Prints a program's words.
fn print_words(rt: &HostRuntime, path: &[u8], words: &[u16]) -> Outcome {
    let mut text = blank::<u8, TEXT_BYTES>(0);
    match print(words, &mut text) {
        Ok(bytes) => ended(rt, rt.stdout().write_all(&text[..bytes])),
        Err(r) => {
            say_refused(rt, path, u16::from(r), "more than 32715 words");
            Outcome::Refused
        }
    }
}

// Shows all tasks.
fn show_tasks<W: Write>(out: &mut W, s: Shape, im: &[u16]) -> io::Result<()>
    requires { Sound s im.now }
{
    for k in 0..s.n {
        show_task(out, s, im, Task(k as u16))?;
    }
    Ok(())
}

// Prints the task that is asked for; where there is none, that is said.
fn print_task(rt: &HostRuntime, path: &[u8], s: Shape, im: &[u16]) -> Outcome
    requires { Sound s im.now }
{
    let mut text = [0u8; ARG_BYTES];
    let end = short_arg(rt, TASK_AT, &mut text);
    if let Some(t) = read_word(&text[..end]) {
        if (t as usize) < s.n {
            return ended(rt, show_task(&mut rt.stdout(), s, im, Task(t)));
        }
    }
    say(rt, &text[..end]);
    say(rt, b": no task of ");
    say(rt, path);
    say(rt, b"\n");
    Outcome::Unread
}

// Prints an image's tasks, or the one that is asked for.
fn print_image(rt: &HostRuntime, path: &[u8], im: &[u16]) -> Outcome {
    match good_shape(im) {
        Err(r) => {
            say_refused_image(rt, path, im, r);
            Outcome::Refused
        }
        Ok(s) if arg_count(rt) == TASK_ARGUMENTS => print_task(rt, path, s, im),
        Ok(s) => ended(rt, show_tasks(&mut rt.stdout(), s, im)),
    }
}

// Prints the words of the file that is the argument at a place, in the way that is given.
fn print_file<F: FnOnce(&HostRuntime, &[u8], &[u16]) -> Outcome>(
    rt: &HostRuntime,
    path_at: usize,
    print_loaded: F,
) -> Outcome
    requires { F.IsAlwaysCallable print_loaded }
{
    let mut buffer = blank::<u8, FILE_BYTES>(0);
    let mut words = blank::<u16, FILE_WORDS>(0);
    let mut path = [0u8; ARG_BYTES];
    let end = short_arg(rt, path_at, &mut path);
    match load_words(rt, &path[..end], &mut buffer, &mut words) {
        Some(count) => print_loaded(rt, &path[..end], &words[..count]),
        None => Outcome::Unread,
    }
}

// Prints as the arguments say.
fn run(rt: &HostRuntime) -> Outcome {
    match arg_count(rt) {
        PROGRAM_ARGUMENTS => print_file(rt, PROGRAM_AT, print_words),
        IMAGE_ARGUMENTS | TASK_ARGUMENTS => print_file(rt, IMAGE_AT, print_image),
        _ => misused(rt),
    }
}

fn main(rt: HostRuntime) {
    tell(&rt, run(&rt));
}
