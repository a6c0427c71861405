// The public kernel: checking an image, the size of a plan, building, one event, a run, and a run that counts. No call requires anything.
#![tactic(auto)]

ghost use Rattle.std.specs.Prelude.{◌≡◌, ◌%◌, length};
ghost use Rattle.paper.specs.Promises.{Happens, Runs, Reports};
ghost use Rattle.laws.specs.Events.{Lawful};
ghost use Rattle.order_table.specs.Entries.{OrderTable};
ghost use Rattle.happening.specs.Lists.{stop_of};
ghost use Rattle.careful.specs.OneByOne.{CountsAll};
ghost use Rattle.kernel.specs.Begins.{Begins};

pub use builds::build;
use careful::count_one_by_one;
use counting::has_room;
use happening::{NO_COUNTS, Took, step, take_events};
pub use inspect::check;
use inspect::good_shape;
use order_table::laid_out;
use paper::{Answer, COUNTS, EVENT_WORDS, Ended, HIGH_BYTES, Refusal, Shape};
pub use plans::size;

// One event: kind, device, character.
pub fn event(im: &mut [u16], kind: u16, device: u16, character: u16) -> Result<Answer, Refusal>
    ensures { Happens im.old kind device character result im.new }
{
    let s = good_shape(im)?;
    let table = laid_out();
    step(s, im, &table, kind, device, character)
}

// The shape that a run goes on with: that of a good image, where the list holds whole events.
fn begin(im: &[u16], events: &[u16]) -> Result<Shape, Refusal>
    ensures { Begins im.now events.now result }
{
    let shape = good_shape(im)?;
    if events.len() % EVENT_WORDS != 0 {
        return Err(Refusal::MalformedEvent);
    }
    Ok(shape)
}

// What a run answers that took these events.
fn ended(took: Took) -> Ended
    ensures { (result.taken ≡ took.taken) × (result.stop ≡ stop_of took.last) }
{
    Ended {
        taken: took.taken,
        stop: took.last.and(Ok(())),
    }
}

// A run over a list of events.
pub fn run(im: &mut [u16], events: &[u16]) -> Ended
    ensures { Runs im.old events.now result im.new }
{
    match begin(im, events) {
        Ok(s) => {
            let table = laid_out();
            let mut none: [u32; NO_COUNTS] = [0; NO_COUNTS];
            ended(take_events(s, im, &table, &mut none, events))
        }
        Err(r) => Ended {
            taken: 0,
            stop: Err(r),
        },
    }
}

// Counts the events of a list, up to the first refused one: as a run goes, where no count can come to its end.
fn count_events(
    s: Shape,
    im: &mut [u16],
    table: &[u16; HIGH_BYTES],
    counts: &mut [u32],
    events: &[u16],
) -> Ended
    requires lawful { Lawful s im.old }
    requires order_table { OrderTable table.now }
    requires events_len { length events.now % 3 ≡ 0 }
    ensures counts_all { CountsAll s im.old counts.old events.now result.taken result.stop im.new counts.new }
    ensures lawful_2 { Lawful s im.new }
{
    if counts.len() == COUNTS && has_room(counts, events.len() / EVENT_WORDS) {
        return ended(take_events(s, im, table, counts, events));
    }
    count_one_by_one(s, im, table, counts, events)
}

// A run that counts into a list of counts.
pub fn report_on(im: &mut [u16], events: &[u16], counts: &mut [u32]) -> Ended
    ensures { Reports im.old events.now counts.old result im.new counts.new }
{
    match begin(im, events) {
        Ok(s) => {
            let table = laid_out();
            count_events(s, im, &table, counts, events)
        }
        Err(r) => Ended {
            taken: 0,
            stop: Err(r),
        },
    }
}

// A run that counts.
pub fn report(im: &mut [u16], events: &[u16], counts: &mut [u32; COUNTS]) -> Ended
    ensures { Reports im.old events.now counts.old result im.new counts.new }
{
    report_on(im, events, counts)
}
