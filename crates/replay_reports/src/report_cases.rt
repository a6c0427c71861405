// Replays a record of a run that counts, on the image and the counts that stand.
use kernel_c::RunNumbers;
use kernel_c::reports::kernel_report;
use std::io::Read;
use vectors::records::{BadRecord, Head, read_array, read_words, wide};
use vectors::standing::{Image, Standing};

// The most counts that a record may have.
const MOST_COUNTS: usize = 256;

// The counts that cases go by.
pub type Counts = Standing<u32, MOST_COUNTS>;

// The numbers that a run that counts may give: those of a run, 12 for a list of counts of another length, and 17.
pub const REPORT_NUMBERS: [u16; 12] = [0, 1, 2, 3, 4, 5, 6, 7, 8, 9, 12, 17];

// The most words of a list.
const MOST_LIST: usize = 4096;

// What a record of a report says before its list: the words of the list, how the run ends, and how many changes of the image and of the counts follow the list.
#[derive(Clone, Copy)]
struct Case {
    words: usize,
    ended: RunNumbers,
    changes: usize,
    grown: usize,
}

// Reads what a record of a report says before its list.
fn read_case<R: Read>(source: &mut R, head: Head) -> Result<Case, BadRecord> {
    let [
        taken_low,
        taken_high,
        changes_low,
        changes_high,
        grown_low,
        grown_high,
    ] = read_array::<R, 6>(source)?;
    let ended = RunNumbers {
        taken: wide(taken_low, taken_high) as u64,
        number: head.number,
    };
    Ok(Case {
        words: head.count,
        ended,
        changes: wide(changes_low, changes_high),
        grown: wide(grown_low, grown_high),
    })
}

// Whether a run that counts ends and leaves what its record says. The image and the counts take the changes that follow in the file.
pub fn is_reported<R: Read>(
    source: &mut R,
    image: &mut Image,
    counts: &mut Counts,
    head: Head,
) -> Result<bool, BadRecord> {
    let case = read_case(source, head)?;
    if !REPORT_NUMBERS.contains(&case.ended.number) {
        return Err(BadRecord);
    }
    let mut list_room = [0u16; MOST_LIST];
    let list = list_room.get_mut(..case.words).ok_or(BadRecord)?;
    read_words(source, list)?;
    let mut room = counts.room;
    let counted = &mut room[..counts.held];
    let same = image.is_changed_by(source, case.changes, |trial| {
        kernel_report(trial, list, counted) == case.ended
    })?;
    let grown = counts.becomes(source, case.grown, counted)?;
    Ok(same && grown)
}
