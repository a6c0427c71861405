// Shows that the bound on turns is reached: for each k from 1 to 15, an image on which a task with k others ahead is first after exactly as many ticks.
#![tactic(auto)]

ghost use Rattle.std.specs.Prelude.{◌≤◌};

use kernel::{build, event, size};
use numbers::task_of;
use paper::{
    LEADING_WORDS, MOST_TASKS, MOST_WORDS, PAIR_WORDS, PLAN_CI_AT, PLAN_CM_AT, PLAN_CO_AT,
    PLAN_SLICE_AT, PLAN_TASKS_AT, TICK,
};
use std::io;

// The most others that can be ahead.
const MOST_AHEAD: usize = MOST_TASKS - 1;

// The slice of every plan.
const SLICE: u16 = 2;

// The clock of the image from which ticks are counted.
const CLOCK: usize = 1;

// The ticks of a turn, in which a task uses its whole slice: an order, the service that it asks for, and the turn is passed.
const TURN: usize = 3;

// One tick more, an order, and the clock of the first task has fallen to 1 with its send pending.
const ORDER: usize = 1;

// The words of a program, which fill its segment.
const PROGRAM: usize = 16;

// The words of the longest plan.
const PLAN_WORDS: usize = 293;

// The order of every program: send R3 to task 0.
const SEND: u16 = 4624;

// The capacity of message buffers, more than a program sends.
const MESSAGES: u16 = 32;

// More ticks than any turn is waited for.
const TICKS_END: usize = 1000;

// A plan of so many tasks whose programs send word after word.
fn plan_of(tasks: usize) -> [u16; PLAN_WORDS]
    requires { tasks ≤ MOST_TASKS }
{
    let mut plan = [SEND; PLAN_WORDS];
    plan[PLAN_TASKS_AT] = tasks as u16;
    plan[PLAN_SLICE_AT] = SLICE;
    plan[PLAN_CI_AT] = 1;
    plan[PLAN_CO_AT] = 1;
    plan[PLAN_CM_AT] = MESSAGES;
    plan[LEADING_WORDS..LEADING_WORDS + PAIR_WORDS * tasks].fill(PROGRAM as u16);
    plan
}

// Whether a tick finds a task first: its answer names the one that was.
fn is_first(im: &mut [u16], task: usize) -> bool {
    event(im, TICK, 0, 0).is_ok_and(|answer| usize::from(task_of(answer)) == task)
}

// So many ticks.
fn tick(im: &mut [u16], ticks: usize) {
    for _ in 0..ticks {
        let _ = event(im, TICK, 0, 0);
    }
}

// How many ticks pass before one finds a task first, if any does.
fn waited(im: &mut [u16], task: usize) -> Option<usize> {
    for ticks in 0..TICKS_END {
        if is_first(im, task) {
            return Some(ticks);
        }
    }
    None
}

// How many ticks task k of a plan waits for its turn, from where the first task has its send pending and the clock is 1, with room for the image.
fn ticks_in(plan: &[u16], room: &mut [u16], k: usize) -> Option<usize>
    requires { k ≤ MOST_AHEAD }
{
    let total = size(plan).ok()?;
    let im = room.get_mut(..total)?;
    let _ = build(plan, im);
    tick(im, TURN * (k + 1) + ORDER);
    waited(im, k)
}

// How many ticks a task with k others ahead waits for its turn, if it comes.
fn ticks_of(k: usize) -> Option<usize>
    requires { k ≤ MOST_AHEAD }
{
    let tasks = k + 1;
    let plan = plan_of(tasks);
    let words = LEADING_WORDS + (PAIR_WORDS + PROGRAM) * tasks;
    let mut room = [0u16; MOST_WORDS];
    ticks_in(&plan[..words], &mut room, k)
}

// Prints the bound and how many ticks passed, for each k.
fn main(rt: HostRuntime) -> io::Result<()> {
    for k in 1..MOST_TASKS {
        let bound = CLOCK + 1 + (k - 1) * (usize::from(SLICE) + 1);
        let ticks = ticks_of(k).unwrap_or(TICKS_END);
        println!(&rt; "k {k}: bound {bound}, first after {ticks} ticks")?;
    }
    Ok(())
}
