// The bars of the chart: how high they are, their parts, and what stands under them.
ghost use Rattle.std.specs.Prelude.{◌≡◌, ◌<◌, ◌≤◌, length};
ghost use Rattle.paper.specs.Counts.{most_count};
ghost use Rattle.paper.specs.Image.{most_tasks};
ghost use Rattle.shares.specs.Percent.{sums_end};

use crate::headings::{LEGEND, idle_ticks, row_of, share_of};
use paper::{COUNTS, HEADINGS, MOST_TASKS};
use shares::task_ticks;
use std::io;
use std::io::Write;

// What bars stand on, counted from above; the height of the highest.
pub const BASE: u64 = 490;

const HIGHEST: u64 = 370;

// Where the first bar stands, how far bars are apart, how wide they are, and where their middle is.
pub const FIRST_BAR: u64 = 70;

const PITCH: u64 = 64;

const BAR_WIDTH: u64 = 40;

const MIDDLE: u64 = 20;

// Where the numbers of tasks, their ticks and their shares stand.
const NUMBER_BASE: u64 = 508;

const TICKS_BASE: u64 = 526;

const SHARE_BASE: u64 = 544;

// No task has a number from here on.
const TASKS_END: u16 = MOST_TASKS as u16;

// A box: its left upper corner and its size.
#[derive(Clone, Copy)]
pub struct Frame {
    pub x: u64,
    pub y: u64,
    pub width: u64,
    pub height: u64,
}

// Puts a box that is filled as a heading's.
pub fn put_box<W: Write>(page: &mut W, fill: &str, frame: Frame) -> io::Result<()> {
    let Frame {
        x,
        y,
        width,
        height,
    } = frame;
    write!(
        page,
        r#"<rect x="{x}" y="{y}" width="{width}" height="{height}""#
    )?;
    writeln!(page, r#" fill="{fill}" stroke="black"/>"#)
}

// Puts the start of a text whose middle is at a place.
fn put_label<W: Write>(page: &mut W, x: u64, y: u64) -> io::Result<()> {
    write!(
        page,
        r#"<text x="{x}" y="{y}" font-size="10" text-anchor="middle">"#
    )
}

// Puts a number whose middle is at a place.
fn put_figure<W: Write>(page: &mut W, x: u64, y: u64, n: u64) -> io::Result<()> {
    put_label(page, x, y)?;
    writeln!(page, "{n}</text>")
}

// How high so many ticks are drawn, where the most are drawn highest.
fn height_of(ticks: u64, most: u64) -> u64
    requires { ticks < sums_end }
    ensures { result ≤ 370 }
{
    if ticks == 0 {
        return 0;
    }
    if most <= ticks {
        return HIGHEST;
    }
    HIGHEST * ticks / most
}

// Puts a part of a bar, from a height to another, if it has any.
fn put_part<W: Write>(page: &mut W, fill: &str, x: u64, low: u64, high: u64) -> io::Result<()>
    requires { high ≤ 370 }
{
    if high <= low {
        return Ok(());
    }
    put_box(
        page,
        fill,
        Frame {
            x,
            y: BASE - high,
            width: BAR_WIDTH,
            height: high - low,
        },
    )
}

// Puts the parts of a task's bar, which is as long as its counts.
fn put_parts<W: Write>(page: &mut W, row: &[u32], x: u64, most: u64) -> io::Result<()>
    requires { length row.now ≡ 6 }
{
    let mut below: u64 = 0;
    for (heading, count) in LEGEND.iter().zip(row) {
        let upto = below + u64::from(*count);
        put_part(
            page,
            heading.fill,
            x,
            height_of(below, most),
            height_of(upto, most),
        )?;
        below = upto;
    }
    Ok(())
}

// Puts what stands under the bar of a task: its number, its ticks and its share.
fn put_under<W: Write>(
    page: &mut W,
    counts: &[u32; COUNTS],
    i: usize,
    middle: u64,
) -> io::Result<()>
    requires { i < most_tasks }
{
    let task = i as u16;
    put_figure(page, middle, NUMBER_BASE, i as u64)?;
    put_figure(page, middle, TICKS_BASE, task_ticks(counts, task))?;
    put_label(page, middle, SHARE_BASE)?;
    match share_of(counts, task) {
        Some(share) => write!(page, "{}.{:02} %", share.whole, share.rest)?,
        None => write!(page, "none counted")?,
    }
    writeln!(page, "</text>")
}

// Puts the bar of a task.
fn put_bar<W: Write>(page: &mut W, counts: &[u32; COUNTS], i: usize, most: u64) -> io::Result<()>
    requires { i < most_tasks }
{
    let x = FIRST_BAR + PITCH * i as u64;
    put_parts(page, row_of(counts, i), x, most)?;
    put_under(page, counts, i, x + MIDDLE)
}

// Puts the bar of the idle ticks after those of so many tasks.
fn put_idle<W: Write>(page: &mut W, ticks: u64, tasks: usize, most: u64) -> io::Result<()>
    requires ticks_le_most_count { ticks ≤ most_count }
    requires tasks_le_most_tasks { tasks ≤ most_tasks }
{
    let x = FIRST_BAR + PITCH * tasks as u64;
    put_part(page, LEGEND[HEADINGS].fill, x, 0, height_of(ticks, most))?;
    put_label(page, x + MIDDLE, NUMBER_BASE)?;
    writeln!(page, "idle</text>")?;
    put_figure(page, x + MIDDLE, TICKS_BASE, ticks)
}

// The ticks that are drawn highest: the most of a task, or the idle ones.
fn most_ticks(counts: &[u32; COUNTS]) -> u64 {
    (0..TASKS_END)
        .map(|task| task_ticks(counts, task))
        .fold(idle_ticks(counts), u64::max)
}

// Puts the bars of so many tasks, and that of the idle ticks.
pub fn put_bars<W: Write>(page: &mut W, counts: &[u32; COUNTS], tasks: usize) -> io::Result<()> {
    let most = most_ticks(counts);
    let shown = tasks.min(MOST_TASKS);
    for i in 0..shown {
        put_bar(page, counts, i, most)?;
    }
    put_idle(page, idle_ticks(counts), shown, most)
}
