// Who used the machine, for programs in C and Rust: a run that counts, and a task's share. No call requires anything.
ghost use Rattle.kernel_c.specs.Promises.{ReportsC, SharesC};

use crate::RunNumbers;
use kernel::report_on;
use numbers::number_of_verdict;
use paper::{COUNTS, Refusal};
use shares::share_on;

// Whether a share is told.
const TOLD: u16 = 1;

const NOT_TOLD: u16 = 0;

// A run that counts; counts of another length than 97 are refused before all else.
#[unsafe(no_mangle)]
pub extern "C" fn kernel_report(image: &mut [u16], events: &[u16], counts: &mut [u32]) -> RunNumbers
    ensures { ReportsC image.old events.now counts.old result image.new counts.new }
{
    if counts.len() != COUNTS {
        return RunNumbers {
            taken: 0,
            number: u16::from(Refusal::WrongTarget),
        };
    }
    let ended = report_on(image, events, counts);
    let stop = ended.stop;
    RunNumbers {
        taken: ended.taken as u64,
        number: number_of_verdict(stop),
    }
}

// A task's share of all ticks, written where there is one.
#[unsafe(no_mangle)]
pub extern "C" fn kernel_share(counts: &[u32], task: u16, share: &mut f64) -> u16
    ensures { SharesC counts.now task share.old result share.new }
{
    if counts.len() != COUNTS {
        return NOT_TOLD;
    }
    match share_on(counts, task) {
        Some(part) => {
            *share = part;
            TOLD
        }
        None => NOT_TOLD,
    }
}
