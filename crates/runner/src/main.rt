// Runs events.bin on plan.bin, both in the folder that it is run in; or as its arguments say: the files of the plan and of the
// events, the image to start from in place of the plan, and the file to save the image in, empty where not asked for.
#![tactic(auto)]

use disk::{ARG_BYTES, Outcome, arg, arg_count, misused, say_long_arg, tell};
use runner_files::run_files;

// How many arguments there are where none is given, and where all are, the program's own name among them.
const BARE: usize = 1;

const ARGUMENTS: usize = 5;

// Where each argument stands.
const PLAN_AT: usize = 1;

const EVENTS_AT: usize = 2;

const IMAGE_AT: usize = 3;

const SAVED_AT: usize = 4;

// Says that an argument is longer than any path, of which the first bytes are given.
fn too_long(rt: &HostRuntime, path: &[u8]) -> Outcome {
    say_long_arg(rt, path);
    Outcome::Unread
}

// Runs as the arguments say. Each lies in a buffer of the length of any path, so that no memory can run out.
fn run_given(rt: &HostRuntime) -> Outcome {
    let mut plan = [0u8; ARG_BYTES];
    let Some(plan_end) = arg(rt, PLAN_AT, &mut plan) else {
        return too_long(rt, &plan);
    };
    let mut events = [0u8; ARG_BYTES];
    let Some(events_end) = arg(rt, EVENTS_AT, &mut events) else {
        return too_long(rt, &events);
    };
    let mut image = [0u8; ARG_BYTES];
    let Some(image_end) = arg(rt, IMAGE_AT, &mut image) else {
        return too_long(rt, &image);
    };
    let mut saved = [0u8; ARG_BYTES];
    let Some(saved_end) = arg(rt, SAVED_AT, &mut saved) else {
        return too_long(rt, &saved);
    };
    run_files(
        rt,
        &plan[..plan_end],
        &events[..events_end],
        &image[..image_end],
        &saved[..saved_end],
    )
}

// Runs the folder's files, or as the arguments say.
fn run(rt: &HostRuntime) -> Outcome {
    match arg_count(rt) {
        BARE => run_files(rt, b"plan.bin", b"events.bin", b"", b""),
        ARGUMENTS => run_given(rt),
        _ => misused(rt),
    }
}

fn main(rt: HostRuntime) {
    tell(&rt, run(&rt));
}
