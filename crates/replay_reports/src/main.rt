// Replays the stored runs that count and the stored shares, and prints how many cases each number has, how many differ, and how many of those that are wrong on purpose were told.
#![tactic(auto)]

mod report_cases;
mod share_cases;

use report_cases::{Counts, REPORT_NUMBERS, is_reported};
use share_cases::{SHARE_NUMBERS, is_share};
use std::io::{self, Read};
use vectors::records::{BadRecord, Head, Kind};
use vectors::replays::{Replay, replay_path};
use vectors::standing::Image;
use vectors::tally::Tally;

// The image and the counts that runs and shares go by.
#[derive(Drop)]
struct Reports {
    image: Image,
    counts: Counts,
}

impl Reports {
    // No image and no counts yet.
    fn new() -> Reports {
        Reports {
            image: Image::new(0),
            counts: Counts::new(0),
        }
    }
}

impl Replay for Reports {
    fn replay<R: Read>(
        &mut self,
        source: &mut R,
        head: Head,
        tally: &mut Tally,
    ) -> Result<(), BadRecord> {
        let Reports { image, counts } = self;
        match head.kind {
            Kind::Image => image.read(source, head.count),
            Kind::Counts => counts.read(source, head.count),
            Kind::Report => tally.count(head.number, is_reported(source, image, counts, head)),
            Kind::Share => tally.count(head.number, is_share(source, counts, head)),
            _ => Err(BadRecord),
        }
    }
}

// Replays the file of reports and the file of shares.
fn main(rt: HostRuntime) -> io::Result<()> {
    replay_path(
        &rt,
        "report.bin",
        &mut Reports::new(),
        "report ",
        &REPORT_NUMBERS,
    )?;
    replay_path(
        &rt,
        "share.bin",
        &mut Reports::new(),
        "share ",
        &SHARE_NUMBERS,
    )
}
