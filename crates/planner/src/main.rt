// Joins programs to a plan: the arguments are the plan's file, S, CI, CO, CM, and for each task the length of its segment, a
// colon, and its program's file.
#![tactic(auto)]

ghost use Rattle.std.specs.Prelude.{◌≡◌, ◌+◌, ◌*◌, ◌<◌, ◌≤◌, length};
ghost use Rattle.planner.specs.Parts.{leading, pair, most_tasks, most_program, most_plan, Ends};

use disk::{ARG_BYTES, Outcome, arg_count, blank, load_words, misused, save, say, short_arg, tell};
use joining::{read_task, read_word};
use paper::{LEADING_WORDS, MOST_TASKS, PAIR_WORDS};
use plans::size;
use saying::say_refused_plan;

// Where the plan's file stands among the arguments, the numbers from S on, and the tasks, the program's own name before them.
const PLAN_AT: usize = 1;

const NUMBERS_AT: usize = 2;

const TASKS_AT: usize = 6;

// The most bytes of a program: those of the longest segment.
const PROGRAM_BYTES: usize = 65430;

// The words of a plan of 16 such programs. It stays an array with an end beside it: the memory of the programs is fixed.
const PLAN_WORDS: usize = 523477;

// Says what an argument is not.
fn say_not(rt: &HostRuntime, text: &[u8], what: &[u8]) {
    say(rt, text);
    say(rt, what);
}

// The number that an argument is; where it is none, that is said.
fn read_argument(rt: &HostRuntime, k: usize) -> Option<u16> {
    let mut text = [0u8; ARG_BYTES];
    let end = short_arg(rt, k, &mut text);
    let read = read_word(&text[..end]);
    if read.is_none() {
        say_not(rt, &text[..end], b": not a number 0..65535\n");
    }
    read
}

// Puts the first words into a plan: N, and the numbers of the arguments.
fn put_leading(rt: &HostRuntime, n: usize, plan: &mut [u16]) -> Option<()>
    requires { (n ≤ most_tasks) × (length plan.old ≡ most_plan) }
{
    plan[0] = n as u16;
    for (k, word) in plan[1..LEADING_WORDS].iter_mut().enumerate() {
        *word = read_argument(rt, NUMBERS_AT + k)?;
    }
    Some(())
}

// Puts the words of a program's file into a plan from a place on, and answers where they end; where they cannot be had, that is
// said.
fn put_program(rt: &HostRuntime, path: &[u8], plan: &mut [u16], at: usize) -> Option<usize>
    requires { at + most_program ≤ length plan.old }
    ensures { Ends at most_program result }
{
    let mut bytes = blank::<u8, PROGRAM_BYTES>(0);
    let count = load_words(rt, path, &mut bytes, &mut plan[at..])?;
    Some(at + count)
}

// Puts task k into a plan: its pair, and its program from a place on.
fn put_task(rt: &HostRuntime, k: usize, plan: &mut [u16], at: usize) -> Option<usize>
    requires { (k < most_tasks) × ((leading + pair * most_tasks ≤ length plan.old) × (at + most_program ≤ length plan.old)) }
    ensures { Ends at most_program result }
{
    let mut text = [0u8; ARG_BYTES];
    let end = short_arg(rt, TASKS_AT + k, &mut text);
    let Some((length, path)) = read_task(&text[..end]) else {
        say_not(
            rt,
            &text[..end],
            b": not LENGTH:PROGRAM, with a length 0..65535\n",
        );
        return None;
    };
    let next = put_program(rt, path, plan, at)?;
    plan[LEADING_WORDS + PAIR_WORDS * k] = length;
    plan[LEADING_WORDS + PAIR_WORDS * k + 1] = (next - at) as u16;
    Some(next)
}

// Puts all tasks into a plan, and answers where the last program ends.
fn put_tasks(rt: &HostRuntime, n: usize, plan: &mut [u16]) -> Option<usize>
    requires { (n ≤ most_tasks) × (length plan.old ≡ most_plan) }
    ensures { Ends (leading + pair * n) (most_program * n) result }
{
    let mut at = LEADING_WORDS + PAIR_WORDS * n;
    for k in 0..n {
        at = put_task(rt, k, plan, at)?;
    }
    Some(at)
}

// Writes a plan to the file of the first argument, if it is accepted.
fn write_plan(rt: &HostRuntime, plan: &[u16]) -> Outcome {
    let mut path = [0u8; ARG_BYTES];
    let end = short_arg(rt, PLAN_AT, &mut path);
    match size(plan) {
        Ok(_) => save(rt, &path[..end], plan),
        Err(r) => {
            say_refused_plan(rt, &path[..end], plan, false, r);
            Outcome::Refused
        }
    }
}

// Joins n programs to a plan; where something asked for cannot be had, that is said.
fn join(rt: &HostRuntime, n: usize) -> Option<Outcome>
    requires { n ≤ most_tasks }
{
    let mut plan = blank::<u16, PLAN_WORDS>(0);
    put_leading(rt, n, &mut plan)?;
    let end = put_tasks(rt, n, &mut plan)?;
    Some(write_plan(rt, &plan[..end]))
}

// Joins as the arguments say.
fn run(rt: &HostRuntime) -> Outcome {
    match arg_count(rt).checked_sub(TASKS_AT) {
        Some(n @ 1..=MOST_TASKS) => join(rt, n).unwrap_or(Outcome::Unread),
        _ => misused(rt),
    }
}

fn main(rt: HostRuntime) {
    tell(&rt, run(&rt));
}
