// Replays the stored translations of texts and the stored prints, and prints how many cases each number has, how many differ, and how many of those that are wrong on purpose were told.
#![tactic(auto)]

mod prints;
mod translating;

use disk::blank;
use prints::is_printed;
use std::io::{self, Read};
use translating::is_translated;
use vectors::records::{BadRecord, Head, Kind};
use vectors::replays::{Replay, replay_path};
use vectors::tally::{PRINT_NUMBERS, TEXT_NUMBERS, Tally};

// The names, and what is stored of a printed text, have fewer bytes than this.
const NAMES_END: usize = 70000;

// The most bytes of a script, or of a buffer for a text.
const TEXT_BYTES: usize = 524288;

// The most words of a target, or of a list.
const MOST_WORDS: usize = 98304;

// Room for the texts and the words of a translation or a print.
#[derive(Drop)]
struct Texts {
    names: [u8; NAMES_END],
    text: [u8; TEXT_BYTES],
    words: [u16; MOST_WORDS],
}

impl Texts {
    // All of it blank.
    fn new() -> Texts {
        Texts {
            names: blank(0),
            text: blank(0),
            words: blank(0),
        }
    }
}

impl Replay for Texts {
    fn replay<R: Read>(
        &mut self,
        source: &mut R,
        head: Head,
        tally: &mut Tally,
    ) -> Result<(), BadRecord> {
        let Texts { names, text, words } = self;
        let same = match head.kind {
            Kind::Texts if TEXT_NUMBERS.contains(&head.number) => {
                is_translated(source, names, text, words, head)
            }
            Kind::Prints if PRINT_NUMBERS.contains(&head.number) => {
                is_printed(source, words, text, names, head)
            }
            _ => Err(BadRecord),
        };
        tally.count(head.number, same)
    }
}

// Replays a file with room of its own, which is given back before the next.
fn replay_file(rt: &HostRuntime, path: &str, name: &str, numbers: &[u16]) -> io::Result<()> {
    replay_path(rt, path, &mut Texts::new(), name, numbers)
}

// Replays the file of translations and the file of prints.
fn main(rt: HostRuntime) -> io::Result<()> {
    replay_file(&rt, "text.bin", "text ", &TEXT_NUMBERS)?;
    replay_file(&rt, "print.bin", "print ", &PRINT_NUMBERS)
}
