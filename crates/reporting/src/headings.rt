// What both the table and the chart say: the headings, a task's counts and its share, and the idle ticks.
ghost use Rattle.std.specs.Prelude.{◌≡◌, ◌<◌, ◌≤◌, length};
ghost use Rattle.paper.specs.Counts.{most_count};
ghost use Rattle.paper.specs.Image.{most_tasks};

use paper::{COUNTS, HEADINGS, IDLE_COUNT};
use shares::{all_ticks, hundredths, task_ticks};

// A heading: its name, and what its boxes are filled with.
pub struct Heading {
    pub name: &'static str,
    pub fill: &'static str,
}

// A percent has so many hundredths.
const HUNDREDTHS: u64 = 100;

// A share in percent: the whole ones, and the hundredths after the point.
#[derive(Clone, Copy)]
pub struct Percent {
    pub whole: u64,
    pub rest: u64,
}

const SHOWN: usize = 7;

// The headings of a task, and last the idle ticks.
pub static LEGEND: [Heading; SHOWN] = [
    Heading {
        name: "orders",
        fill: "#777777",
    },
    Heading {
        name: "services",
        fill: "url(#slanted)",
    },
    Heading {
        name: "waits",
        fill: "white",
    },
    Heading {
        name: "faults",
        fill: "black",
    },
    Heading {
        name: "error stops",
        fill: "url(#crossed)",
    },
    Heading {
        name: "passed turns",
        fill: "#cccccc",
    },
    Heading {
        name: "idle",
        fill: "url(#level)",
    },
];

// The counts of a task, one a heading.
pub fn row_of(counts: &[u32; COUNTS], i: usize) -> &[u32]
    requires { i < most_tasks }
    ensures { length result.now ≡ 6 }
{
    &counts[HEADINGS * i..HEADINGS * i + HEADINGS]
}

// The idle ticks.
pub fn idle_ticks(counts: &[u32; COUNTS]) -> u64
    ensures { result ≤ most_count }
{
    u64::from(counts[IDLE_COUNT])
}

// A task's share of all ticks; there is none where no ticks were counted.
pub fn share_of(counts: &[u32; COUNTS], task: u16) -> Option<Percent> {
    let all = all_ticks(counts);
    if all == 0 {
        return None;
    }
    let ticks = task_ticks(counts, task);
    let share = hundredths(ticks, all);
    Some(Percent {
        whole: share / HUNDREDTHS,
        rest: share % HUNDREDTHS,
    })
}
