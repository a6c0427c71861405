// Replays a record of a run on the image that stands.
use kernel_c::{RunNumbers, kernel_run};
use std::io::Read;
use vectors::records::{BadRecord, Head, read_array, read_words, wide};
use vectors::standing::Image;
use vectors::tally::RUN_NUMBERS;

// The most words of a list.
const MOST_LIST: usize = 200000;

// What a record of a run says before its list: the words of the list, how the run ends, and how many changes follow the list.
#[derive(Clone, Copy)]
struct Case {
    words: usize,
    ended: RunNumbers,
    changes: usize,
}

// Reads what a record of a run says before its list.
fn read_case<R: Read>(source: &mut R, head: Head) -> Result<Case, BadRecord> {
    let [taken_low, taken_high, changes_low, changes_high] = read_array::<R, 4>(source)?;
    let ended = RunNumbers {
        taken: wide(taken_low, taken_high) as u64,
        number: head.number,
    };
    Ok(Case {
        words: head.count,
        ended,
        changes: wide(changes_low, changes_high),
    })
}

// Whether a run on the image that stands ends and leaves what its record says. The image takes the changes that follow in the file.
pub fn is_run<R: Read>(source: &mut R, image: &mut Image, head: Head) -> Result<bool, BadRecord> {
    let case = read_case(source, head)?;
    if !RUN_NUMBERS.contains(&case.ended.number) {
        return Err(BadRecord);
    }
    let mut room = [0u16; MOST_LIST];
    let list = room.get_mut(..case.words).ok_or(BadRecord)?;
    read_words(source, list)?;
    image.is_changed_by(
        source,
        case.changes,
        |trial| kernel_run(trial, list) == case.ended,
    )
}
