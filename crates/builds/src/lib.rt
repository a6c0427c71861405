// Building an image from a plan.
#![tactic(auto)]

ghost use Rattle.std.specs.Prelude.{◌≡◌, length};
ghost use Rattle.paper.specs.Image.{ord, total};
ghost use Rattle.paper.specs.Plans.{fresh_part, fresh};
ghost use Rattle.paper.specs.Numbers.{check_build};
ghost use Rattle.paper.specs.Calls.{built};
ghost use Rattle.paper.specs.Promises.{Builds};
ghost use Rattle.paper.specs.declared.Part.TheVariants.{Header, ReadyQueue, StatusTable, Ports};
ghost use Rattle.plans.specs.Sizes.{Packed};
ghost use Rattle.fresh_parts.specs.Accepted.{Plan};
ghost use Rattle.fresh_parts.specs.Writing.{RoomFor, Wrote};
ghost use Rattle.builds.specs.Stages.{BuiltUpto};

use fresh_parts::{
    put_header, put_lead, put_numbers, put_queues, put_segments, put_table, put_tasks,
};
use numbers::number_of_verdict;
use paper::{PORT_WORDS, Place, Refusal, SEGMENTS, STATUS_WORDS, Shape};
use plans::{shape_sized, size};
use writes::put_zeros;

// Shape, plan, target and place stay four arguments: a struct of them would be taken apart for each call of fresh_parts, no two of which take the same.

// The ready queue: all tasks in order.
fn put_ready(s: Shape, plan: &[u16], out: &mut [u16], at: Place) -> Place
    requires plan { Plan s plan.now }
    requires room_for { RoomFor out.old at (fresh_part s plan.now ReadyQueue) }
    ensures { Wrote out.old at (fresh_part s plan.now ReadyQueue) out.new result }
{
    let n = s.n as u16;
    let slots = put_lead(out, at, n, n);
    put_numbers(out, slots, s.n)
}

// The header, the task table and the ready queue.
fn put_tables(s: Shape, plan: &[u16], out: &mut [u16]) -> Place
    requires plan { Plan s plan.now }
    requires packed { Packed s }
    requires built_upto { BuiltUpto s plan.now (ord Header) out.old out.old 0 }
    ensures { BuiltUpto s plan.now (ord StatusTable) out.old out.new result.0 }
{
    let tasks = put_header(s, out);
    let ready = put_tasks(s, plan, out, tasks);
    put_ready(s, plan, out, ready)
}

// The status table, whose words are 0 already, and the input, output and message buffers.
fn put_buffers(s: Shape, plan: &[u16], out: &mut [u16], at: Place) -> Place
    requires plan { Plan s plan.now }
    requires built_upto { BuiltUpto s plan.now (ord StatusTable) out.old out.old at.0 }
    ensures { BuiltUpto s plan.now (ord Ports) out.old out.new result.0 }
{
    let n = s.n;
    let inputs = Place(at.0 + n * STATUS_WORDS);
    let outputs = put_queues(out, inputs, n, s.ci);
    let messages = put_queues(out, outputs, n, s.co);
    put_queues(out, messages, n * n, s.cm)
}

// The ports, whose words are 0 already, the segment table and the segments.
fn put_rest(s: Shape, plan: &[u16], out: &mut [u16], at: Place)
    requires plan { Plan s plan.now }
    requires built_upto { BuiltUpto s plan.now (ord Ports) out.old out.old at.0 }
    ensures { out.new ≡ fresh plan.now }
{
    let table = Place(at.0 + s.n * PORT_WORDS);
    let segments = put_table(s, plan, out, table);
    put_segments(s, plan, out, segments);
}

// The fresh image of an accepted plan: all before the segments is 0 first.
fn put_image(s: Shape, plan: &[u16], out: &mut [u16])
    requires plan { Plan s plan.now }
    requires packed { Packed s }
    requires out_len { length out.old ≡ total s }
    ensures { out.new ≡ fresh plan.now }
{
    let starts = s.starts;
    put_zeros(out, 0, starts[SEGMENTS]);
    let status = put_tables(s, plan, out);
    let ports = put_buffers(s, plan, out, status);
    put_rest(s, plan, out, ports);
}

// Builds the image of a plan in the target, where the target has just its words.
fn build_in(plan: &[u16], target: &mut [u16]) -> Result<(), Refusal>
    ensures verdict { result ≡ check_build plan.now target.old }
    ensures left { target.new ≡ built plan.now target.old }
{
    let whole = size(plan)?;
    if target.len() != whole {
        return Err(Refusal::WrongTarget);
    }
    put_image(shape_sized(plan, whole), plan, target);
    Ok(())
}

// Builds the image of a plan in the target: the number of the refusal, or 0.
pub fn build(plan: &[u16], target: &mut [u16]) -> u16
    ensures { Builds plan.now target.old result target.new }
{
    number_of_verdict(build_in(plan, target))
}
