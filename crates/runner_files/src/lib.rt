// One run: takes a plan's file or an image's, and a file of events; prints a line for each event, says what became of them, and
// saves the image where that is asked for.
#![tactic(auto)]

mod taking;

ghost use Rattle.std.specs.Prelude.{◌≡◌, length, Ok};
ghost use Rattle.std.specs.Result.{result_ok};
ghost use Rattle.paper.specs.Image.{total};
ghost use Rattle.paper.specs.Numbers.{check_plan};
ghost use Rattle.laws.specs.Events.{Lawful};
ghost use Rattle.fresh_parts.specs.Accepted.{Plan};
ghost use Rattle.disk.specs.Bytes.{Starts};
ghost use Rattle.runner_files.specs.Turns.{LoadedPlan};

use builds::build;
use disk::{
    IMAGE_BYTES, IMAGE_WORDS, Outcome, Start, ended, fail, load_image, load_start, open_source,
    save, say,
};
use files::{PLAN_BYTES, PLAN_WORDS, is_odd, read_plan};
use inspect::good_shape;
use paper::{MOST_WORDS, Refusal, Shape};
use plans::{shape_of_plan, total_of};
use runner_lines::{MOST_LINE, put_line};
use saying::{say_refused_image, say_refused_plan};
use std::fs::File;
use std::io::{ErrorKind, Write};
use taking::run_events;

// The number that a refused plan or image has in place of an event's.
const REFUSED_START: u64 = 0;

// Says that a file is missing.
fn say_missing(rt: &HostRuntime, path: &[u8]) {
    say(rt, path);
    say(rt, b": missing, it counts as empty\n");
}

// Opens a file to read it; where it is missing, or cannot be opened, that is said.
fn open_if_there(rt: &HostRuntime, path: &[u8]) -> Result<Option<File>, Outcome> {
    match open_source(rt, path) {
        Ok(file) => Ok(Some(file)),
        Err(error) if error.kind() == ErrorKind::NotFound => {
            say_missing(rt, path);
            Ok(None)
        }
        Err(error) => {
            fail(rt, path, error);
            Err(Outcome::Unread)
        }
    }
}

// Prints the line of a refused plan or image.
fn print_refused(rt: &HostRuntime, r: Refusal) -> Outcome {
    let mut text = [0u8; MOST_LINE];
    let end = put_line(&mut text, 0, REFUSED_START, Err(r));
    let printed = ended(rt, rt.stdout().write_all(&text[..end]));
    if let Outcome::Done = printed {
        return Outcome::Refused;
    }
    printed
}

// Refuses a plan's file.
fn refuse_plan(rt: &HostRuntime, path: &[u8], plan: &[u16], odd: bool, r: Refusal) -> Outcome {
    let refused = print_refused(rt, r);
    say_refused_plan(rt, path, plan, odd, r);
    refused
}

// Refuses an image's file.
fn refuse_image(rt: &HostRuntime, path: &[u8], im: &[u16], r: Refusal) -> Outcome {
    let refused = print_refused(rt, r);
    say_refused_image(rt, path, im, r);
    refused
}

// Runs the events of a file on an image; a missing file counts as empty.
fn run_events_file(rt: &HostRuntime, s: Shape, im: &mut [u16], path: &[u8]) -> Outcome
    requires { Lawful s im.old }
{
    match open_if_there(rt, path) {
        Ok(Some(mut file)) => run_events(rt, path, &mut file, s, im),
        Ok(None) => Outcome::Done,
        Err(outcome) => outcome,
    }
}

// Saves the image after a run whose lines are all printed, and answers what became of both.
fn save_after(rt: &HostRuntime, ran: Outcome, im: &[u16], path: &[u8]) -> Outcome {
    if let Outcome::Unwritten = ran {
        return ran;
    }
    let saved = save(rt, path, im);
    if let Outcome::Done = saved {
        return ran;
    }
    saved
}

// Runs the events of a file on an image, and saves it where a path is given.
fn run_image(rt: &HostRuntime, s: Shape, im: &mut [u16], events: &[u8], saved: &[u8]) -> Outcome
    requires { Lawful s im.old }
{
    let ran = run_events_file(rt, s, im, events);
    if saved.is_empty() {
        return ran;
    }
    save_after(rt, ran, im, saved)
}

// Builds the image of an accepted plan in its place and runs on it.
fn run_fresh(
    rt: &HostRuntime,
    s: Shape,
    plan: &[u16],
    im: &mut [u16],
    events: &[u8],
    saved: &[u8],
) -> Outcome
    requires plan { Plan s plan.now }
    requires im_len { length im.old ≡ total s }
{
    build(plan, im);
    run_image(rt, s, im, events, saved)
}

// Runs on the image of an accepted plan.
fn run_plan(rt: &HostRuntime, plan: &[u16], events: &[u8], saved: &[u8]) -> Outcome
    requires { check_plan plan.now ≡ Ok tt }
{
    let s = shape_of_plan(plan);
    let size = total_of(s);
    let mut image = [0u16; MOST_WORDS];
    run_fresh(rt, s, plan, &mut image[..size], events, saved)
}

// Reads a plan's file to its end; a missing one counts as empty.
fn load_plan(rt: &HostRuntime, path: &[u8], buffer: &mut [u8]) -> Result<Start, Outcome>
    ensures { Starts buffer.new (result_ok result) }
{
    let Some(mut file) = open_if_there(rt, path)? else {
        return Ok(Start {
            bytes: 0,
            odd: false,
        });
    };
    load_start(rt, path, &mut file, buffer).ok_or(Outcome::Unread)
}

// Runs on the plan of a file, the start of which is in a buffer.
fn run_loaded_plan(
    rt: &HostRuntime,
    path: &[u8],
    buffer: &[u8],
    start: Start,
    events: &[u8],
    saved: &[u8],
) -> Outcome
    requires { LoadedPlan buffer.now start.bytes start.odd }
{
    let mut words = [0u16; PLAN_WORDS];
    let plan = read_plan(buffer, start.bytes, start.odd, &mut words);
    let count = plan.words;
    let verdict = plan.verdict;
    match verdict {
        Ok(()) => run_plan(rt, &words[..count], events, saved),
        Err(r) => {
            let odd = is_odd(start.odd, start.bytes);
            refuse_plan(rt, path, &words[..count], odd, r)
        }
    }
}

// Runs on the plan of a file.
fn run_plan_file(rt: &HostRuntime, path: &[u8], events: &[u8], saved: &[u8]) -> Outcome {
    let mut buffer = [0u8; PLAN_BYTES];
    match load_plan(rt, path, &mut buffer) {
        Ok(start) => run_loaded_plan(rt, path, &buffer, start, events, saved),
        Err(outcome) => outcome,
    }
}

// Runs on the words of an image's file.
fn run_loaded_image(
    rt: &HostRuntime,
    path: &[u8],
    im: &mut [u16],
    events: &[u8],
    saved: &[u8],
) -> Outcome {
    match good_shape(im) {
        Ok(s) => run_image(rt, s, im, events, saved),
        Err(r) => refuse_image(rt, path, im, r),
    }
}

// Runs on the image of a file.
fn run_image_file(rt: &HostRuntime, path: &[u8], events: &[u8], saved: &[u8]) -> Outcome {
    let mut buffer = [0u8; IMAGE_BYTES];
    let mut words = [0u16; IMAGE_WORDS];
    let Some(count) = load_image(rt, path, &mut buffer, &mut words) else {
        return Outcome::Unread;
    };
    run_loaded_image(rt, path, &mut words[..count], events, saved)
}

// Runs the events of a file on the plan of another, or on the image of a file where a path is given for one; the image after the
// run is saved where a path is given for it.
pub fn run_files(
    rt: &HostRuntime,
    plan: &[u8],
    events: &[u8],
    image: &[u8],
    saved: &[u8],
) -> Outcome {
    if image.is_empty() {
        return run_plan_file(rt, plan, events, saved);
    }
    run_image_file(rt, image, events, saved)
}
