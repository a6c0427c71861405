// The static library: the public calls of `kernel_c` under the same names, each with the same promise. No call requires anything.
#![tactic(auto)]

ghost use Rattle.kernel_c.specs.Promises.{ChecksC, MeasuresC, BuildsC, HappensC, RunsC, ReportsC, SharesC, TranslatesC, NamesLineC, PrintsC, MeasuresTextC, LooksAtTaskC, LooksAtPortC, LooksAtRegisterC, LooksAtLengthC, LooksAtWordC, TellsBrokenC};

use kernel_c::broken::BrokenNumbers;
use kernel_c::looks::{PortNumbers, TaskNumbers, WordNumbers};
use kernel_c::prints::Printed;
use kernel_c::scripts::{RefusedLine, Translated};
use kernel_c::{Measured, ReplyNumbers, RunNumbers};

// Checks an image.
#[unsafe(no_mangle)]
pub extern "C" fn kernel_check(image: &[u16]) -> u16
    ensures { ChecksC image.now result }
{
    kernel_c::kernel_check(image)
}

// The size of a plan.
#[unsafe(no_mangle)]
pub extern "C" fn kernel_size(plan: &[u16]) -> Measured
    ensures { MeasuresC plan.now result }
{
    kernel_c::kernel_size(plan)
}

// Builds an image from a plan.
#[unsafe(no_mangle)]
pub extern "C" fn kernel_build(plan: &[u16], target: &mut [u16]) -> u16
    ensures { BuildsC plan.now target.old result target.new }
{
    kernel_c::kernel_build(plan, target)
}

// One event: kind, device, character.
#[unsafe(no_mangle)]
pub extern "C" fn kernel_event(
    image: &mut [u16],
    kind: u16,
    device: u16,
    character: u16,
) -> ReplyNumbers
    ensures { HappensC image.old kind device character result image.new }
{
    kernel_c::kernel_event(image, kind, device, character)
}

// A run over a list of events.
#[unsafe(no_mangle)]
pub extern "C" fn kernel_run(image: &mut [u16], events: &[u16]) -> RunNumbers
    ensures { RunsC image.old events.now result image.new }
{
    kernel_c::kernel_run(image, events)
}

// A run that counts; counts of another length than 97 are refused before all else.
#[unsafe(no_mangle)]
pub extern "C" fn kernel_report(image: &mut [u16], events: &[u16], counts: &mut [u32]) -> RunNumbers
    ensures { ReportsC image.old events.now counts.old result image.new counts.new }
{
    kernel_c::reports::kernel_report(image, events, counts)
}

// A task's share of all ticks, written where there is one.
#[unsafe(no_mangle)]
pub extern "C" fn kernel_share(counts: &[u32], task: u16, share: &mut f64) -> u16
    ensures { SharesC counts.now task share.old result share.new }
{
    kernel_c::reports::kernel_share(counts, task, share)
}

// Translates a script with a list of names.
#[unsafe(no_mangle)]
pub extern "C" fn kernel_translate<'a>(
    names: &'a [u8],
    script: &'a [u8],
    target: &mut [u16],
) -> Translated
    ensures { TranslatesC names.now script.now target.old result target.new }
{
    kernel_c::scripts::kernel_translate(names, script, target)
}

// The line that is refused with a target of so many words.
#[unsafe(no_mangle)]
pub extern "C" fn kernel_refused_line<'a>(
    names: &'a [u8],
    script: &'a [u8],
    room: u64,
) -> RefusedLine
    ensures { NamesLineC names.now script.now room result }
{
    kernel_c::scripts::kernel_refused_line(names, script, room)
}

// Prints a list of words as a text.
#[unsafe(no_mangle)]
pub extern "C" fn kernel_print(words: &[u16], text: &mut [u8]) -> Printed
    ensures { PrintsC words.now text.old result text.new }
{
    kernel_c::prints::kernel_print(words, text)
}

// How many bytes the text of a list of words has.
#[unsafe(no_mangle)]
pub extern "C" fn kernel_print_size(words: &[u16]) -> Printed
    ensures { MeasuresTextC words.now result }
{
    kernel_c::prints::kernel_print_size(words)
}

// A task of an image: its status, peer, cc, error and pending service.
#[unsafe(no_mangle)]
pub extern "C" fn kernel_task(image: &[u16], t: u16) -> TaskNumbers
    ensures { LooksAtTaskC image.now t result }
{
    kernel_c::looks::kernel_task(image, t)
}

// A port of an image: whether it is busy, and its character.
#[unsafe(no_mangle)]
pub extern "C" fn kernel_port(image: &[u16], device: u16) -> PortNumbers
    ensures { LooksAtPortC image.now device result }
{
    kernel_c::looks::kernel_port(image, device)
}

// Register r of a task of an image.
#[unsafe(no_mangle)]
pub extern "C" fn kernel_register(image: &[u16], t: u16, r: u16) -> WordNumbers
    ensures { LooksAtRegisterC image.now t r result }
{
    kernel_c::looks::kernel_register(image, t, r)
}

// How many words a queue of an image holds.
#[unsafe(no_mangle)]
pub extern "C" fn kernel_queue_length(image: &[u16], queue: u16, i: u16, j: u16) -> WordNumbers
    ensures { LooksAtLengthC image.now queue i j result }
{
    kernel_c::looks::kernel_queue_length(image, queue, i, j)
}

// The word at a place of a queue of an image, counted from its head.
#[unsafe(no_mangle)]
pub extern "C" fn kernel_queue_word(
    image: &[u16],
    queue: u16,
    i: u16,
    j: u16,
    at: u16,
) -> WordNumbers
    ensures { LooksAtWordC image.now queue i j at result }
{
    kernel_c::looks::kernel_queue_word(image, queue, i, j, at)
}

// The first broken rule of an image, and the first task or queue that breaks it.
#[unsafe(no_mangle)]
pub extern "C" fn kernel_broken_rule(image: &[u16]) -> BrokenNumbers
    ensures { TellsBrokenC image.now result }
{
    kernel_c::broken::kernel_broken_rule(image)
}
