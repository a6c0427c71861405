// Replays a record of an event on the image that stands.
use kernel_c::{ReplyNumbers, kernel_event};
use paper::NOT_REFUSED;
use std::io::Read;
use vectors::records::{BadRecord, Head, read_array};
use vectors::standing::Image;
use vectors::tally::EVENT_NUMBERS;

// What a record of an event says before its changes: the event, what is expected, and how many changes follow.
#[derive(Clone, Copy)]
struct Case {
    kind: u16,
    device: u16,
    character: u16,
    expected: ReplyNumbers,
    changes: usize,
}

// Reads what a record of an event says before its changes.
fn read_case<R: Read>(source: &mut R, head: Head) -> Result<Case, BadRecord> {
    let [kind, device, character, answer, task] = read_array::<R, 5>(source)?;
    let expected = ReplyNumbers {
        number: head.number,
        kind: answer,
        task,
    };
    Ok(Case {
        kind,
        device,
        character,
        expected,
        changes: head.count,
    })
}

// Whether an event may have the number of a case and as many changes.
fn is_right(case: Case) -> bool {
    let number = case.expected.number;
    EVENT_NUMBERS.contains(&number) && (number == NOT_REFUSED || case.changes == 0)
}

// Whether an event on the image that stands says and leaves what its record says. The image takes the changes that follow in the file.
pub fn is_event<R: Read>(source: &mut R, image: &mut Image, head: Head) -> Result<bool, BadRecord> {
    let case = read_case(source, head)?;
    if !is_right(case) {
        return Err(BadRecord);
    }
    image.is_changed_by(source, case.changes, |trial| {
        kernel_event(trial, case.kind, case.device, case.character) == case.expected
    })
}
