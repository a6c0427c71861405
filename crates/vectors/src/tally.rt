// Counts the cases of a file and prints the counts.
ghost use Rattle.std.specs.Prelude.{◌<◌, IfSome};

use crate::records::BadRecord;
use std::io;

// The number of what is not there.
pub const NOT_THERE: u16 = 65535;

// An expected number is less than this, but for that of what is not there.
const NUMBERS: usize = 18;

// How many counts of cases there are: one for each number, and one for what is not there.
const COUNTS: usize = 19;

// The numbers that a check may give.
pub const CHECK_NUMBERS: [u16; 7] = [0, 1, 2, 3, 4, 5, 6];

// The numbers that a build may give.
pub const BUILD_NUMBERS: [u16; 4] = [0, 3, 11, 12];

// The outcomes that an order may have.
pub const ORDER_NUMBERS: [u16; 5] = [0, 1, 2, 3, 4];

// The numbers that an event may give.
pub const EVENT_NUMBERS: [u16; 4] = [0, 7, 8, 9];

// The numbers that a run may give: those of a check and of an event.
pub const RUN_NUMBERS: [u16; 10] = [0, 1, 2, 3, 4, 5, 6, 7, 8, 9];

// The numbers that a translation may give.
pub const TEXT_NUMBERS: [u16; 5] = [0, 13, 14, 15, 16];

// The numbers that a print may give.
pub const PRINT_NUMBERS: [u16; 2] = [0, 16];

// The numbers that a look into an image may give.
pub const LOOK_NUMBERS: [u16; 8] = [0, 1, 2, 3, 4, 5, 6, 65535];

// The cases replayed so far, by expected number; those that differ; the records that are wrong on purpose, and those of them that were told to differ.
#[derive(Clone, Copy)]
pub struct Tally {
    pub cases: [u64; COUNTS],
    pub differ: u64,
    pub wrong: u64,
    pub told: u64,
}

// The place of a number's count, where it has one.
fn place_of(number: u16) -> Option<usize>
    ensures { IfSome result (λ place. place < COUNTS) }
{
    if number == NOT_THERE {
        return Some(NUMBERS);
    }
    let place = usize::from(number);
    if place < NUMBERS { Some(place) } else { None }
}

impl Tally {
    // The tally of no cases.
    pub fn new() -> Tally {
        Tally {
            cases: [0; COUNTS],
            differ: 0,
            wrong: 0,
            told: 0,
        }
    }

    // Counts one more case that expects a number, by whether what the code said of it is the same.
    pub fn count(&mut self, number: u16, same: Result<bool, BadRecord>) -> Result<(), BadRecord> {
        let same = same?;
        let place = place_of(number).ok_or(BadRecord)?;
        self.cases[place] = self.cases[place].saturating_add(1);
        if !same {
            self.differ = self.differ.saturating_add(1);
        }
        Ok(())
    }

    // Counts one more record that is wrong on purpose, by what replaying it alone came to.
    pub fn count_wrong(&mut self, alone: &Tally) {
        self.wrong = self.wrong.saturating_add(1);
        if alone.differ > 0 {
            self.told = self.told.saturating_add(1);
        }
    }

    // How many cases a number has.
    fn cases_of(&self, number: u16) -> u64 {
        match place_of(number) {
            Some(place) => self.cases[place],
            None => 0,
        }
    }

    // Prints the tally, with a line for each number listed.
    pub fn print(&self, rt: &impl Print, name: &str, numbers: &[u16]) -> io::Result<()> {
        for &number in numbers {
            let cases = self.cases_of(number);
            println!(rt; "{name}{number}: {cases} cases")?;
        }
        let Tally {
            differ,
            wrong,
            told,
            ..
        } = *self;
        println!(rt; "{differ} differ")?;
        println!(rt; "{wrong} wrong ones, {told} told")
    }
}
