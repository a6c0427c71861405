// The public calls of `views` for programs in C and Rust, in numbers. No call requires anything.
ghost use Rattle.std.specs.Prelude.{◌≡◌};
ghost use Rattle.kernel_c.specs.Views.{unseen_task, task_numbers, unseen_port, port_numbers, unseen_word, word_numbers};
ghost use Rattle.kernel_c.specs.Promises.{LooksAtTaskC, LooksAtPortC, LooksAtRegisterC, LooksAtLengthC, LooksAtWordC};

use paper::{NOT_REFUSED, Refusal};
use views::{PortState, TaskState, port, queue_length, queue_word, register, task};

// The number of what is not there, and what stands in every field where nothing is seen, while 0 is good in each.
pub const NOT_THERE: u16 = 65535;

// 0 and what a task stands in; or the number of the refusal or of what is not there.
#[repr(C)]
#[derive(Clone, Copy)]
pub struct TaskNumbers {
    pub number: u16,
    pub status: u16,
    pub peer: u16,
    pub cc: u16,
    pub error: u16,
    pub pending: u16,
}

// 0 and what a port stands in; or the number of the refusal or of what is not there.
#[repr(C)]
#[derive(Clone, Copy)]
pub struct PortNumbers {
    pub number: u16,
    pub busy: u16,
    pub character: u16,
}

// 0 and a word; or the number of the refusal or of what is not there.
#[repr(C)]
#[derive(Clone, Copy)]
pub struct WordNumbers {
    pub number: u16,
    pub word: u16,
}

// A number with no task.
fn no_task(number: u16) -> TaskNumbers
    ensures { result ≡ unseen_task number }
{
    TaskNumbers {
        number: number,
        status: NOT_THERE,
        peer: NOT_THERE,
        cc: NOT_THERE,
        error: NOT_THERE,
        pending: NOT_THERE,
    }
}

// A number with no port.
fn no_port(number: u16) -> PortNumbers
    ensures { result ≡ unseen_port number }
{
    PortNumbers {
        number: number,
        busy: NOT_THERE,
        character: NOT_THERE,
    }
}

// A number with no word.
fn no_word(number: u16) -> WordNumbers
    ensures { result ≡ unseen_word number }
{
    WordNumbers {
        number: number,
        word: NOT_THERE,
    }
}

// A view of a task, in numbers.
fn tell_task(view: Result<Option<TaskState>, Refusal>) -> TaskNumbers
    ensures { result ≡ task_numbers view }
{
    match view {
        Ok(Some(x)) => TaskNumbers {
            number: NOT_REFUSED,
            status: x.status,
            peer: x.peer,
            cc: x.cc,
            error: x.error,
            pending: x.pending,
        },
        Ok(None) => no_task(NOT_THERE),
        Err(r) => no_task(u16::from(r)),
    }
}

// A view of a port, in numbers.
fn tell_port(view: Result<Option<PortState>, Refusal>) -> PortNumbers
    ensures { result ≡ port_numbers view }
{
    match view {
        Ok(Some(x)) => PortNumbers {
            number: NOT_REFUSED,
            busy: x.busy,
            character: x.character,
        },
        Ok(None) => no_port(NOT_THERE),
        Err(r) => no_port(u16::from(r)),
    }
}

// A view of a word, in numbers.
fn tell_word(view: Result<Option<u16>, Refusal>) -> WordNumbers
    ensures { result ≡ word_numbers view }
{
    match view {
        Ok(Some(w)) => WordNumbers {
            number: NOT_REFUSED,
            word: w,
        },
        Ok(None) => no_word(NOT_THERE),
        Err(r) => no_word(u16::from(r)),
    }
}

// A task of an image: its status, peer, cc, error and pending service.
#[unsafe(no_mangle)]
pub extern "C" fn kernel_task(image: &[u16], t: u16) -> TaskNumbers
    ensures { LooksAtTaskC image.now t result }
{
    tell_task(task(image, t))
}

// A port of an image: whether it is busy, and its character.
#[unsafe(no_mangle)]
pub extern "C" fn kernel_port(image: &[u16], device: u16) -> PortNumbers
    ensures { LooksAtPortC image.now device result }
{
    tell_port(port(image, device))
}

// Register r of a task of an image.
#[unsafe(no_mangle)]
pub extern "C" fn kernel_register(image: &[u16], t: u16, r: u16) -> WordNumbers
    ensures { LooksAtRegisterC image.now t r result }
{
    tell_word(register(image, t, r))
}

// How many words a queue of an image holds.
#[unsafe(no_mangle)]
pub extern "C" fn kernel_queue_length(image: &[u16], queue: u16, i: u16, j: u16) -> WordNumbers
    ensures { LooksAtLengthC image.now queue i j result }
{
    tell_word(queue_length(image, queue, i, j))
}

// The word at a place of a queue of an image, counted from its head.
#[unsafe(no_mangle)]
pub extern "C" fn kernel_queue_word(
    image: &[u16],
    queue: u16,
    i: u16,
    j: u16,
    at: u16,
) -> WordNumbers
    ensures { LooksAtWordC image.now queue i j at result }
{
    tell_word(queue_word(image, queue, i, j, at))
}
