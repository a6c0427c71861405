// The outcome of one order of an image's first ready task: a tick of it, with time on the clock and nothing else to do.
ghost use Rattle.std.specs.Prelude.{◌<◌, length};
ghost use Rattle.order_table.specs.Entries.{OrderTable};
ghost use Rattle.order_cases.specs.Table.{OrderTable-prop};

use happening::step;
use inspect::good_shape;
use order_table::laid_out;
use paper::{
    Answer, CLOCK_AT, ERROR, ERROR_END, FLAGS, HIGH_BYTES, LEAD_WORDS, NO_ERROR, NOTHING_PENDING,
    PENDING, READY_QUEUE_AT, Refusal, TASK_TABLE_AT, TASK_WORDS, TICK,
};

// A clock by which a tick is an order.
const SOME_TIME: u16 = 1;

// The outcome of an order that is done.
const DONE: u16 = 0;

// The outcome of any answer that no order gives.
const OTHER: u16 = 65535;

// The orders of a task, by the table of orders.
#[derive(Drop)]
pub struct Orders {
    table: [u16; HIGH_BYTES],
    ghost lawful: { OrderTable table } by { OrderTable-prop table },
}

// The error in a task's flags.
fn error_of(flags: u16) -> u16 {
    flags / ERROR % ERROR_END
}

// The outcome of a tick that left a task with these flags.
fn number_of(reply: Result<Answer, Refusal>, flags: u16) -> u16 {
    match reply {
        Ok(Answer::OrderDone(_)) => DONE,
        Ok(Answer::OrderFaulted(_)) => error_of(flags),
        _ => OTHER,
    }
}

// The word at a place of an image, or 0 past its end.
fn word_at(im: &[u16], at: usize) -> u16 {
    im.get(at).copied().unwrap_or(0)
}

// The place of the first ready task's flags, by what the words of an image say.
fn flags_place(im: &[u16]) -> usize {
    let ready = word_at(im, READY_QUEUE_AT) as usize;
    let first = ready + LEAD_WORDS + word_at(im, ready) as usize;
    let task = word_at(im, first) as usize;
    word_at(im, TASK_TABLE_AT) as usize + TASK_WORDS * task + FLAGS
}

// The flags after an order, with the error and the pending service that it left as they were.
fn with_kept(before: u16, after: u16) -> u16 {
    if after / ERROR % ERROR_END != NO_ERROR {
        return after % PENDING + before / PENDING * PENDING;
    }
    if after / PENDING != NOTHING_PENDING {
        return after + before / ERROR % ERROR_END * ERROR;
    }
    after + before / ERROR * ERROR
}

// Puts the clock, and the error and the pending service in the flags at a place, aside: a tick is then an order.
fn put_aside(im: &mut [u16], at: usize)
    requires { (17 < at) × (at < length im.old) }
{
    im[CLOCK_AT] = SOME_TIME;
    im[at] = im[at] % ERROR;
}

// Puts them back, where the order set none.
fn put_back(im: &mut [u16], at: usize, clock: u16, flags: u16)
    requires { (17 < at) × (at < length im.old) }
{
    im[CLOCK_AT] = clock;
    im[at] = with_kept(flags, im[at]);
}

impl Orders {
    // The orders as the paper has them.
    pub fn new() -> Orders {
        Orders { table: laid_out() }
    }

    // The outcome of a tick of an image, whose first ready task's flags stand at a place.
    fn ticked(&self, im: &mut [u16], at: usize) -> Option<u16>
        requires { at < length im.old }
    {
        let Ok(shape) = good_shape(im) else {
            return None;
        };
        let reply = step(shape, im, &self.table, TICK, 0, 0);
        Some(number_of(reply, im[at]))
    }

    // Carries out one order of the first ready task of an image, and answers its outcome, if the image allows one. No order looks at what is put aside.
    pub fn outcome(&self, im: &mut [u16]) -> Option<u16> {
        let at = flags_place(im);
        if at <= CLOCK_AT || at >= im.len() {
            return None;
        }
        let clock = im[CLOCK_AT];
        let flags = im[at];
        put_aside(im, at);
        let outcome = self.ticked(im, at);
        put_back(im, at, clock, flags);
        outcome
    }
}
