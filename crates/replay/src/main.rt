// Replays the stored test vectors and prints how many cases each number has, how many differ, and how many of those that are wrong on purpose were told.
#![tactic(auto)]

mod building;

use building::is_built;
use std::io::{self, Read};
use vectors::records::{BadRecord, Head, Kind, read_words};
use vectors::replays::{Replay, replay_path};
use vectors::tally::{BUILD_NUMBERS, CHECK_NUMBERS, Tally};

// The most words of an image, a plan or a target.
const MOST_WORDS: usize = 70000;

// Room for the image of a check.
#[derive(Drop)]
struct Checks {
    image: [u16; MOST_WORDS],
}

impl Checks {
    // Whether a check says what its record says.
    fn is_checked<R: Read>(&mut self, source: &mut R, head: Head) -> Result<bool, BadRecord> {
        let image = self.image.get_mut(..head.count).ok_or(BadRecord)?;
        read_words(source, image)?;
        Ok(inspect::check(image) == head.number)
    }
}

impl Replay for Checks {
    fn replay<R: Read>(
        &mut self,
        source: &mut R,
        head: Head,
        tally: &mut Tally,
    ) -> Result<(), BadRecord> {
        if head.kind != Kind::Check || !CHECK_NUMBERS.contains(&head.number) {
            return Err(BadRecord);
        }
        tally.count(head.number, self.is_checked(source, head))
    }
}

// Room for the plan and the target of a build.
#[derive(Drop)]
struct Builds {
    plan: [u16; MOST_WORDS],
    target: [u16; MOST_WORDS],
}

impl Replay for Builds {
    fn replay<R: Read>(
        &mut self,
        source: &mut R,
        head: Head,
        tally: &mut Tally,
    ) -> Result<(), BadRecord> {
        if head.kind != Kind::Build || !BUILD_NUMBERS.contains(&head.number) {
            return Err(BadRecord);
        }
        let built = is_built(source, &mut self.plan, &mut self.target, head);
        tally.count(head.number, built)
    }
}

// Replays the file of checks and the file of builds.
fn main(rt: HostRuntime) -> io::Result<()> {
    let mut checks = Checks {
        image: [0; MOST_WORDS],
    };
    replay_path(&rt, "check.bin", &mut checks, "check ", &CHECK_NUMBERS)?;
    let mut builds = Builds {
        plan: [0; MOST_WORDS],
        target: [0; MOST_WORDS],
    };
    replay_path(&rt, "build.bin", &mut builds, "build ", &BUILD_NUMBERS)
}
