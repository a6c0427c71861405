// Replays the record of a look into the image to go by.
use kernel_c::broken::{BrokenNumbers, kernel_broken_rule};
use kernel_c::looks::{
    PortNumbers, TaskNumbers, WordNumbers, kernel_port, kernel_queue_length, kernel_queue_word,
    kernel_register, kernel_task,
};
use std::io::Read;
use vectors::records::{BadRecord, Head, read_array};

// The words that a look is asked with.
const ASKED: usize = 4;

// The fields that come back beside the number.
const FIELDS: usize = 5;

// The calls that look into an image.
#[derive(Clone, Copy, PartialEq, Eq)]
enum Call {
    Task,
    Port,
    Register,
    QueueLength,
    QueueWord,
    BrokenRule,
}

impl TryFrom<usize> for Call {
    type Error = BadRecord;

    fn try_from(number: usize) -> Result<Call, BadRecord> {
        match number {
            0 => Ok(Call::Task),
            1 => Ok(Call::Port),
            2 => Ok(Call::Register),
            3 => Ok(Call::QueueLength),
            4 => Ok(Call::QueueWord),
            5 => Ok(Call::BrokenRule),
            _ => Err(BadRecord),
        }
    }
}

// What a look gives: its number, and its fields, 0 for those that its call does not have.
#[derive(Clone, Copy, PartialEq, Eq)]
struct Seen {
    number: u16,
    fields: [u16; FIELDS],
}

impl From<TaskNumbers> for Seen {
    fn from(task: TaskNumbers) -> Seen {
        Seen {
            number: task.number,
            fields: [task.status, task.peer, task.cc, task.error, task.pending],
        }
    }
}

impl From<PortNumbers> for Seen {
    fn from(port: PortNumbers) -> Seen {
        Seen {
            number: port.number,
            fields: [port.busy, port.character, 0, 0, 0],
        }
    }
}

impl From<WordNumbers> for Seen {
    fn from(word: WordNumbers) -> Seen {
        Seen {
            number: word.number,
            fields: [word.word, 0, 0, 0, 0],
        }
    }
}

impl From<BrokenNumbers> for Seen {
    fn from(broken: BrokenNumbers) -> Seen {
        Seen {
            number: broken.number,
            fields: [broken.rule, broken.queue, broken.i, broken.j, 0],
        }
    }
}

// What is seen by one of the calls, asked with a task, device or queue, a register or a queue's first task, its second task, and a place in the queue.
fn seen_by(im: &[u16], call: Call, asked: [u16; ASKED]) -> Seen {
    let [first, second, third, fourth] = asked;
    match call {
        Call::Task => Seen::from(kernel_task(im, first)),
        Call::Port => Seen::from(kernel_port(im, first)),
        Call::Register => Seen::from(kernel_register(im, first, second)),
        Call::QueueLength => Seen::from(kernel_queue_length(im, first, second, third)),
        Call::QueueWord => Seen::from(kernel_queue_word(im, first, second, third, fourth)),
        Call::BrokenRule => Seen::from(kernel_broken_rule(im)),
    }
}

// Whether a look into an image gives what its record says.
pub fn is_seen<R: Read>(source: &mut R, im: &[u16], head: Head) -> Result<bool, BadRecord> {
    let asked = read_array::<R, ASKED>(source)?;
    let fields = read_array::<R, FIELDS>(source)?;
    let call = Call::try_from(head.count)?;
    let expected = Seen {
        number: head.number,
        fields,
    };
    Ok(seen_by(im, call, asked) == expected)
}
