// The table: a line a task with its counts, its ticks and its share; the idle ticks; the sum.
ghost use Rattle.std.specs.Prelude.{◌<◌};
ghost use Rattle.paper.specs.Image.{most_tasks};

use crate::headings::{LEGEND, idle_ticks, row_of, share_of};
use paper::{COUNTS, HEADINGS, MOST_TASKS};
use shares::{all_ticks, task_ticks};
use std::io;
use std::io::Write;

// Puts the line over the table.
fn put_head<W: Write>(page: &mut W) -> io::Result<()> {
    write!(page, "task")?;
    for heading in &LEGEND[..HEADINGS] {
        write!(page, "{:>14}", heading.name)?;
    }
    writeln!(page, "{:>14}{:>14}", "ticks", "share")
}

// Puts the line of a task.
fn put_line<W: Write>(page: &mut W, counts: &[u32; COUNTS], i: usize) -> io::Result<()>
    requires { i < most_tasks }
{
    let task = i as u16;
    write!(page, "{i:>4}")?;
    for count in row_of(counts, i) {
        write!(page, "{count:>14}")?;
    }
    write!(page, "{:>14}", task_ticks(counts, task))?;
    match share_of(counts, task) {
        Some(share) => writeln!(page, "{:>9}.{:02} %", share.whole, share.rest),
        None => writeln!(page, "{:>14}", "none counted"),
    }
}

// Puts a line of ticks of no task, after its name.
fn put_total<W: Write>(page: &mut W, name: &str, ticks: u64) -> io::Result<()> {
    writeln!(page, "{name:>4}{ticks:>98}")
}

// Puts the table of so many tasks.
pub fn put_table<W: Write>(page: &mut W, counts: &[u32; COUNTS], tasks: usize) -> io::Result<()> {
    put_head(page)?;
    for i in 0..tasks.min(MOST_TASKS) {
        put_line(page, counts, i)?;
    }
    put_total(page, "idle", idle_ticks(counts))?;
    put_total(page, "sum", all_ticks(counts))
}
