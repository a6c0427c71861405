// A task of an image, in words.
ghost use Rattle.std.specs.Prelude.{◌<◌};
ghost use Rattle.laws.specs.Sound.{Sound};

use crate::messages::put_all_messages;
use crate::queues::{gap, put_queue};
use paper::{BASE, EQUAL, LENGTH, LESS, NEXT_ORDER, REGISTERS, Shape, Task};
use saying::{Service, Status};
use std::io;
use std::io::Write;
use views::{INPUT_BUFFER, OUTPUT_BUFFER, TaskState, register, task};
use words::entry;

// The register that holds the next order's address.
const NEXT: u16 = NEXT_ORDER as u16;

// The lines of how a task stands: its number, its status, and its error where it has one; the service that is pending; what its
// last compare found.
fn put_state<W: Write>(out: &mut W, t: Task, state: TaskState) -> io::Result<()> {
    let status = Status {
        status: state.status,
        peer: state.peer,
        error: state.error,
    };
    writeln!(out, "\ntask {}: {status}", t.0)?;
    writeln!(out, "  pending: {}", Service(state.pending))?;
    match state.cc {
        EQUAL => writeln!(out, "  cc: 0 (equal)"),
        LESS => writeln!(out, "  cc: 1 (less)"),
        _ => writeln!(out, "  cc: 2 (greater)"),
    }
}

// The line of a task's registers.
fn put_registers<W: Write>(out: &mut W, im: &[u16], t: Task) -> io::Result<()> {
    write!(out, "  registers:")?;
    for r in 0..REGISTERS {
        if let Ok(Some(word)) = register(im, t.0, r) {
            write!(out, "{}R{r} = {word}", gap(r))?;
        }
    }
    writeln!(out)
}

// The line of a task's segment, with that R0 stands outside it, where it does.
fn put_segment<W: Write>(out: &mut W, s: Shape, im: &[u16], t: Task) -> io::Result<()>
    requires sound { Sound s im.now }
    requires t_lt_n { t.0 < s.n }
{
    let base = entry(s, im, t, BASE);
    let length = entry(s, im, t, LENGTH);
    write!(out, "  segment: base {base}, length {length}")?;
    match register(im, t.0, NEXT) {
        Ok(Some(address)) if length <= address => writeln!(out, "; R0 stands outside it"),
        _ => writeln!(out),
    }
}

// The lines of what a task's buffers hold.
fn put_buffers<W: Write>(out: &mut W, im: &[u16], t: Task) -> io::Result<()> {
    write!(out, "  input:")?;
    put_queue(out, im, INPUT_BUFFER, t.0, 0)?;
    write!(out, "  output:")?;
    put_queue(out, im, OUTPUT_BUFFER, t.0, 0)?;
    put_all_messages(out, im, t.0)
}

// A task: how it stands, its registers, its segment and its buffers.
pub fn put_task<W: Write>(out: &mut W, s: Shape, im: &[u16], t: Task) -> io::Result<()>
    requires sound { Sound s im.now }
    requires t_lt_n { t.0 < s.n }
{
    let Ok(Some(state)) = task(im, t.0) else {
        return Ok(());
    };
    put_state(out, t, state)?;
    put_registers(out, im, t)?;
    put_segment(out, s, im, t)?;
    put_buffers(out, im, t)
}
