// An image in words: its header, its clock and ready queue, its tasks and its ports.
#![tactic(auto)]

mod messages;
mod queues;
mod tasks;

ghost use Rattle.laws.specs.Sound.{Sound};

use messages::TASKS_END;
use paper::{IDLE, Shape, Task};
use queues::{put_character, put_queue};
use std::io;
use std::io::Write;
use tasks::put_task;
use views::{PortState, READY_QUEUE, port};
use words::{Spot, get};

// The lines of the header; its offsets follow from these numbers.
fn put_header<W: Write>(out: &mut W, s: Shape, words: usize) -> io::Result<()> {
    writeln!(out, "words: {words}")?;
    writeln!(out, "tasks: {}", s.n)?;
    writeln!(out, "slice: {}", s.slice)?;
    writeln!(
        out,
        "capacities: input {}, output {}, messages {}",
        s.ci, s.co, s.cm
    )
}

// The lines of the clock and of the ready queue.
fn put_turn<W: Write>(out: &mut W, s: Shape, im: &[u16]) -> io::Result<()>
    requires { Sound s im.now }
{
    writeln!(out, "clock: {}", get(s, im, Spot::Clock))?;
    write!(out, "ready queue:")?;
    put_queue(out, im, READY_QUEUE, 0, 0)
}

// The paragraphs of the tasks.
fn put_tasks<W: Write>(out: &mut W, s: Shape, im: &[u16]) -> io::Result<()>
    requires { Sound s im.now }
{
    for k in 0..s.n {
        put_task(out, s, im, Task(k as u16))?;
    }
    Ok(())
}

// The line of a port.
fn put_port<W: Write>(out: &mut W, d: u16, state: PortState) -> io::Result<()> {
    if state.busy == IDLE {
        return writeln!(out, "port {d}: idle");
    }
    write!(out, "port {d}: busy with ")?;
    put_character(out, state.character)?;
    writeln!(out)
}

// The lines of the ports.
fn put_ports<W: Write>(out: &mut W, im: &[u16]) -> io::Result<()> {
    writeln!(out)?;
    for d in 0..TASKS_END {
        let Ok(Some(state)) = port(im, d) else {
            return Ok(());
        };
        put_port(out, d, state)?;
    }
    Ok(())
}

// An image of a shape. The two stay two parameters, since a value of both would be taken apart at each call of `words`, which are
// the kernel's and take them so.
pub fn describe<W: Write>(out: &mut W, s: Shape, im: &[u16]) -> io::Result<()>
    requires { Sound s im.now }
{
    put_header(out, s, im.len())?;
    put_turn(out, s, im)?;
    put_tasks(out, s, im)?;
    put_ports(out, im)
}
