// Who used the machine: the ticks of a task, all ticks, and the task's share of them.
#![tactic(auto)]

ghost use Rattle.std.specs.Prelude.{◌≡◌, ◌<◌, ◌≤◌, length};
ghost use Rattle.paper.specs.Counts.{all_counts, sum, task_ticks as ticks_of_task, all_ticks as ticks_of_all};
ghost use Rattle.paper.specs.Promises.{Shares};
ghost use Rattle.shares.specs.Percent.{sums_end, percent};

use paper::{COUNTS, HEADINGS, MOST_TASKS};

// A whole has so many hundredths of a percent, and each of these two halves.
const WHOLE: u64 = 10000;

const HALVES: u64 = 2;

// The sum of counts, of which there are no more than all.
fn sum_of(counts: &[u32]) -> u64
    requires { length counts.now ≤ all_counts }
    ensures value { result ≡ sum counts.now }
    ensures upper_bound { result < sums_end }
{
    counts.iter().map(|count| u64::from(*count)).sum()
}

// The ticks of a task: its headings together; a task that cannot be has none.
pub fn task_ticks(counts: &[u32], task: u16) -> u64
    requires { length counts.now ≡ all_counts }
    ensures value { result ≡ ticks_of_task counts.now task }
    ensures upper_bound { result ≤ ticks_of_all counts.now }
{
    let i = task as usize;
    if i < MOST_TASKS {
        let row = HEADINGS * i;
        return sum_of(&counts[row..row + HEADINGS]);
    }
    0
}

// All counted ticks, the idle ones among them.
pub fn all_ticks(counts: &[u32]) -> u64
    requires { length counts.now ≡ all_counts }
    ensures value { result ≡ ticks_of_all counts.now }
    ensures upper_bound { result < sums_end }
{
    sum_of(counts)
}

// A task's share of all ticks, of a list that has every count: one division, rounded once.
pub fn share_on(counts: &[u32], task: u16) -> Option<f64>
    requires { length counts.now ≡ all_counts }
    ensures { Shares counts.now task result }
{
    let all = all_ticks(counts);
    if all == 0 {
        return None;
    }
    let ticks = task_ticks(counts, task);
    let part = ticks as f64;
    let whole = all as f64;
    Some(part / whole)
}

// A task's share of all ticks: the public call (docs/PROMISES.md), on an array; share_on stays for C, which lends a list.
pub fn share(counts: &[u32; COUNTS], task: u16) -> Option<f64>
    ensures { Shares counts.now task result }
{
    share_on(counts, task)
}

// So many ticks of all in hundredths of a percent, to the nearest, a half upwards.
pub fn hundredths(ticks: u64, all: u64) -> u64
    requires ticks_le_all { ticks ≤ all }
    requires all_nonzero { 0 < all }
    requires all_lt_sums_end { all < sums_end }
    ensures { result ≡ percent ticks all }
{
    (HALVES * WHOLE * ticks + all) / (HALVES * all)
}
