// The kernel for programs in C and Rust, which have it from `kernel_archive`: the public calls of `kernel`, in the paper's numbers.
// No call requires anything.
#![tactic(auto)]

pub mod broken;
pub mod looks;
pub mod prints;
pub mod reports;
pub mod scripts;

ghost use Rattle.std.specs.Prelude.{◌≡◌};
ghost use Rattle.paper.specs.Numbers.{reply_number};
ghost use Rattle.paper.specs.Calls.{size_number, size_value};
ghost use Rattle.kernel_c.specs.Answers.{told_kind, told_task};
ghost use Rattle.kernel_c.specs.Promises.{ChecksC, MeasuresC, BuildsC, HappensC, RunsC};

use kernel::{build, check, event, run, size};
use numbers::{kind_of, number_of_verdict, task_of};
use paper::{Answer, NOT_REFUSED, Refusal};

// The kind and the task of a refused event: no answer has them, while 0 is a good kind and a good task.
const NO_ANSWER: u16 = 65535;

// How many words a plan's image has, and 0; or 0, and the number of the refusal.
#[repr(C)]
#[derive(Clone, Copy)]
pub struct Measured {
    pub words: u64,
    pub number: u16,
}

// 0, and the kind and the task of an answer; or the number of the refusal.
#[repr(C)]
#[derive(Clone, Copy, PartialEq, Eq)]
pub struct ReplyNumbers {
    pub number: u16,
    pub kind: u16,
    pub task: u16,
}

// How many events a run took, and the number of the refusal that stopped it, 0 if none did.
#[repr(C)]
#[derive(Clone, Copy, PartialEq, Eq)]
pub struct RunNumbers {
    pub taken: u64,
    pub number: u16,
}

// A size, in numbers.
fn measure(size: Result<usize, Refusal>) -> Measured
    ensures words_value { result.words ≡ size_value size }
    ensures number_value { result.number ≡ size_number size }
{
    match size {
        Ok(words) => Measured {
            words: words as u64,
            number: NOT_REFUSED,
        },
        Err(r) => Measured {
            words: 0,
            number: u16::from(r),
        },
    }
}

// A reply, in numbers.
pub fn tell(reply: Result<Answer, Refusal>) -> ReplyNumbers
    ensures number_value { result.number ≡ reply_number reply }
    ensures kind_value { result.kind ≡ told_kind reply }
    ensures task_value { result.task ≡ told_task reply }
{
    match reply {
        Ok(a) => ReplyNumbers {
            number: NOT_REFUSED,
            kind: kind_of(a),
            task: task_of(a),
        },
        Err(r) => ReplyNumbers {
            number: u16::from(r),
            kind: NO_ANSWER,
            task: NO_ANSWER,
        },
    }
}

// Checks an image.
#[unsafe(no_mangle)]
pub extern "C" fn kernel_check(image: &[u16]) -> u16
    ensures { ChecksC image.now result }
{
    check(image)
}

// The size of a plan.
#[unsafe(no_mangle)]
pub extern "C" fn kernel_size(plan: &[u16]) -> Measured
    ensures { MeasuresC plan.now result }
{
    measure(size(plan))
}

// Builds an image from a plan.
#[unsafe(no_mangle)]
pub extern "C" fn kernel_build(plan: &[u16], target: &mut [u16]) -> u16
    ensures { BuildsC plan.now target.old result target.new }
{
    build(plan, target)
}

// One event: kind, device, character.
#[unsafe(no_mangle)]
pub extern "C" fn kernel_event(
    image: &mut [u16],
    kind: u16,
    device: u16,
    character: u16,
) -> ReplyNumbers
    ensures { HappensC image.old kind device character result image.new }
{
    tell(event(image, kind, device, character))
}

// A run over a list of events.
#[unsafe(no_mangle)]
pub extern "C" fn kernel_run(image: &mut [u16], events: &[u16]) -> RunNumbers
    ensures { RunsC image.old events.now result image.new }
{
    let ended = run(image, events);
    let stop = ended.stop;
    RunNumbers {
        taken: ended.taken as u64,
        number: number_of_verdict(stop),
    }
}
