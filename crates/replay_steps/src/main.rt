// Replays the stored orders, events and runs and prints how many cases each number has, how many differ, and how many of those that are wrong on purpose were told.
#![tactic(auto)]

use event_cases::cases::is_event;
use order_cases::cases::replay_orders;
use order_cases::outcomes::Orders;
use paper::MOST_WORDS;
use run_cases::cases::is_run;
use std::io::{self, Read};
use vectors::records::{BadRecord, Head, Kind};
use vectors::replays::{Replay, replay_path};
use vectors::standing::Image;
use vectors::tally::{EVENT_NUMBERS, ORDER_NUMBERS, RUN_NUMBERS, Tally};

// The image that orders, events and runs go by, the orders, and room to try them.
#[derive(Drop)]
struct Steps {
    orders: Orders,
    image: Image,
    words: [u16; MOST_WORDS],
    trial: [u16; MOST_WORDS],
}

impl Steps {
    // No image yet.
    fn new() -> Steps {
        Steps {
            orders: Orders::new(),
            image: Image::new(0),
            words: [0; MOST_WORDS],
            trial: [0; MOST_WORDS],
        }
    }
}

impl Replay for Steps {
    fn replay<R: Read>(
        &mut self,
        source: &mut R,
        head: Head,
        tally: &mut Tally,
    ) -> Result<(), BadRecord> {
        let Steps {
            orders,
            image,
            words,
            trial,
        } = self;
        match head.kind {
            Kind::Image => image.read(source, head.count),
            Kind::Orders => replay_orders(source, orders, image, words, trial, head, tally),
            Kind::Event => tally.count(head.number, is_event(source, image, head)),
            Kind::Run => tally.count(head.number, is_run(source, image, head)),
            _ => Err(BadRecord),
        }
    }
}

// Replays a file with room of its own, which is given back before the next.
fn replay_file(rt: &HostRuntime, path: &str, name: &str, numbers: &[u16]) -> io::Result<()> {
    replay_path(rt, path, &mut Steps::new(), name, numbers)
}

// Replays the file of orders, the file of events and the file of runs.
fn main(rt: HostRuntime) -> io::Result<()> {
    replay_file(&rt, "order.bin", "order ", &ORDER_NUMBERS)?;
    replay_file(&rt, "event.bin", "event ", &EVENT_NUMBERS)?;
    replay_file(&rt, "run.bin", "run ", &RUN_NUMBERS)
}
