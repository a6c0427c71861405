// Reports who used the machine: the arguments are the file of the chart, empty where none is asked for, that of the plan, and
// those of the lists of events.
#![tactic(auto)]

mod lists;
mod output;

ghost use Rattle.std.specs.Prelude.{◌≡◌, ◌≤◌, true, length, Ok};
ghost use Rattle.paper.specs.Numbers.{check_plan};
ghost use Rattle.files.specs.PlanFiles.{enough};
ghost use Rattle.disk.specs.Bytes.{Starts};

use disk::{
    ARG_BYTES, Outcome, Start, arg, arg_count, fail, load_start, misused, open_source,
    say_long_arg, tell,
};
use files::{PLAN_BYTES, PLAN_WORDS, is_odd, read_plan};
use kernel::build;
use lists::Night;
use output::{print_table, save_chart};
use paper::{COUNTS, MOST_WORDS, Refusal};
use plans::{shape_of_plan, total_of};
use saying::say_refused_plan;

// Where the arguments stand, the program's own name before them.
const CHART_AT: usize = 1;

const PLAN_AT: usize = 2;

const LISTS_AT: usize = 3;

// Says that an argument is longer than any path, of which the first bytes are given.
fn too_long(rt: &HostRuntime, path: &[u8]) -> Outcome {
    say_long_arg(rt, path);
    Outcome::Unread
}

// Counts the list that is the argument at a place.
fn count_argument(rt: &HostRuntime, k: usize, night: &mut Night) -> Outcome {
    let mut path = [0u8; ARG_BYTES];
    match arg(rt, k, &mut path) {
        Some(end) => night.count_list(rt, &path[..end]),
        None => too_long(rt, &path),
    }
}

// Counts the lists one after another, each from the image as the one before left it. An input that could not be had weighs more
// than a refused one.
fn count_lists(rt: &HostRuntime, night: &mut Night) -> Outcome {
    let mut all = Outcome::Done;
    for k in LISTS_AT..arg_count(rt) {
        all = all.max(count_argument(rt, k, night));
    }
    all
}

// Saves the chart where a path is given for it.
fn chart_counted(rt: &HostRuntime, counts: &[u32; COUNTS], tasks: usize) -> Outcome {
    let mut path = [0u8; ARG_BYTES];
    match arg(rt, CHART_AT, &mut path) {
        None => too_long(rt, &path),
        Some(0) => Outcome::Done,
        Some(end) => save_chart(rt, &path[..end], counts, tasks),
    }
}

// Reports on an image of so many tasks.
fn report_image(rt: &HostRuntime, im: &mut [u16], tasks: usize) -> Outcome {
    let mut counts = [0u32; COUNTS];
    let mut night = Night {
        im,
        tasks,
        counts: &mut counts,
    };
    let counted = count_lists(rt, &mut night);
    let printed = print_table(rt, &counts, tasks);
    if printed == Outcome::Unwritten {
        return printed;
    }
    counted.max(chart_counted(rt, &counts, tasks))
}

// Builds the image of a plan in its place and reports on it.
fn report_fresh(rt: &HostRuntime, plan: &[u16], im: &mut [u16], tasks: usize) -> Outcome {
    build(plan, im);
    report_image(rt, im, tasks)
}

// Reports on the image of an accepted plan.
fn report_plan(rt: &HostRuntime, plan: &[u16]) -> Outcome
    requires { check_plan plan.now ≡ Ok tt }
{
    let s = shape_of_plan(plan);
    let size = total_of(s);
    let mut image = [0u16; MOST_WORDS];
    report_fresh(rt, plan, &mut image[..size], s.n)
}

// Refuses a plan's file.
fn refuse_plan(rt: &HostRuntime, path: &[u8], plan: &[u16], odd: bool, r: Refusal) -> Outcome {
    say_refused_plan(rt, path, plan, odd, r);
    Outcome::Refused
}

// Reads a plan's file to its end; where it cannot, that is said.
fn load_plan(rt: &HostRuntime, path: &[u8], buffer: &mut [u8]) -> Option<Start>
    ensures { Starts buffer.new result }
{
    match open_source(rt, path) {
        Ok(mut file) => load_start(rt, path, &mut file, buffer),
        Err(error) => {
            fail(rt, path, error);
            None
        }
    }
}

// Reports on the plan of a file, of which so many bytes are in a buffer, with an odd count of bytes after them or not.
fn report_loaded(rt: &HostRuntime, path: &[u8], buffer: &[u8], found: usize, odd: bool) -> Outcome
    requires buffer_len { length buffer.now ≡ enough }
    requires found_in_bounds { (found ≤ length buffer.now) × (odd ≡ true → length buffer.now ≤ found) }
{
    let mut words = [0u16; PLAN_WORDS];
    let plan = read_plan(buffer, found, odd, &mut words);
    let count = plan.words;
    let verdict = plan.verdict;
    match verdict {
        Ok(()) => report_plan(rt, &words[..count]),
        Err(r) => refuse_plan(rt, path, &words[..count], is_odd(odd, found), r),
    }
}

// Reports on the plan of a file.
fn report_file(rt: &HostRuntime, path: &[u8]) -> Outcome {
    let mut buffer = [0u8; PLAN_BYTES];
    match load_plan(rt, path, &mut buffer) {
        Some(Start { bytes, odd }) => report_loaded(rt, path, &buffer, bytes, odd),
        None => Outcome::Unread,
    }
}

// Reports as the arguments say.
fn run(rt: &HostRuntime) -> Outcome {
    if arg_count(rt) <= LISTS_AT {
        return misused(rt);
    }
    let mut path = [0u8; ARG_BYTES];
    match arg(rt, PLAN_AT, &mut path) {
        Some(end) => report_file(rt, &path[..end]),
        None => too_long(rt, &path),
    }
}

fn main(rt: HostRuntime) {
    tell(&rt, run(&rt));
}
