// Replays the stored looks into images and the stored broken rules, and prints how many cases each number has, how many differ, and how many of those that are wrong on purpose were told.
#![tactic(auto)]

mod looks;

use looks::is_seen;
use std::io::{self, Read};
use vectors::records::{BadRecord, Head, Kind};
use vectors::replays::{Replay, replay_path};
use vectors::standing::Image;
use vectors::tally::{CHECK_NUMBERS, LOOK_NUMBERS, Tally};

// The image that looks go by.
#[derive(Drop)]
struct LookReplay {
    image: Image,
}

impl LookReplay {
    // No image yet.
    fn new() -> LookReplay {
        LookReplay {
            image: Image::new(0),
        }
    }
}

impl Replay for LookReplay {
    fn replay<R: Read>(
        &mut self,
        source: &mut R,
        head: Head,
        tally: &mut Tally,
    ) -> Result<(), BadRecord> {
        match head.kind {
            Kind::Image => self.image.read(source, head.count),
            Kind::Look if LOOK_NUMBERS.contains(&head.number) => {
                let held = self.image.held;
                let seen = is_seen(source, &self.image.room[..held], head);
                tally.count(head.number, seen)
            }
            _ => Err(BadRecord),
        }
    }
}

// Replays the file of looks and the file of broken rules.
fn main(rt: HostRuntime) -> io::Result<()> {
    replay_path(
        &rt,
        "look.bin",
        &mut LookReplay::new(),
        "look ",
        &LOOK_NUMBERS,
    )?;
    replay_path(
        &rt,
        "broken.bin",
        &mut LookReplay::new(),
        "broken ",
        &CHECK_NUMBERS,
    )
}
