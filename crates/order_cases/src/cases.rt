// Replays a record of orders: one order for each word of its span.
ghost use Rattle.std.specs.Prelude.{◌≡◌, ◌+◌, ◌<◌, ◌≤◌, length};

use crate::outcomes::Orders;
use paper::{MOST_WORDS, WORD_END};
use std::io::Read;
use vectors::changes::{Change, MOST_CHANGES, are_places, read_changes, take_back};
use vectors::records::{BadRecord, Head, read_array};
use vectors::standing::Image;
use vectors::tally::{ORDER_NUMBERS, Tally};

// Room for a change.
const NO_CHANGE: Change<u16> = Change { place: 0, item: 0 };

// What a record of orders says before its changes: the outcome, the span, its place and first word, and how many changes follow.
#[derive(Clone, Copy)]
struct Case {
    number: u16,
    span: usize,
    place: usize,
    first: u16,
    changes: usize,
}

// Reads what a record of orders says before its changes.
fn read_case<R: Read>(source: &mut R, head: Head) -> Result<Case, BadRecord> {
    let [place, first, changes] = read_array::<R, 3>(source)?;
    Ok(Case {
        number: head.number,
        span: head.count,
        place: usize::from(place),
        first,
        changes: usize::from(changes),
    })
}

// Whether an order on an image has the number of a case and leaves the changes.
fn is_done(
    orders: &Orders,
    trial: &mut [u16],
    image: &[u16],
    changes: &[Change<u16>],
    number: u16,
) -> Result<bool, BadRecord>
    requires { length trial.old ≡ length image.now }
{
    trial.copy_from_slice(image);
    let outcome = orders.outcome(trial).ok_or(BadRecord)?;
    let made = take_back(trial, image, changes);
    Ok(outcome == number && made && image == trial)
}

// Counts an order for each word of the span, put where the case says.
fn count_span(
    orders: &Orders,
    trial: &mut [u16],
    image: &mut [u16],
    changes: &[Change<u16>],
    case: Case,
    tally: &mut Tally,
) -> Result<(), BadRecord>
    requires trial_len { length trial.old ≡ length image.old }
    requires place_in_bounds { case.place < length image.old }
    requires span_bound { case.first + case.span ≤ WORD_END }
{
    let first = usize::from(case.first);
    let mut all = Ok(());
    for word in first..first + case.span {
        image[case.place] = word as u16;
        let done = is_done(orders, trial, image, changes, case.number);
        all = all.and(tally.count(case.number, done));
    }
    all
}

// Replays a record of orders on a copy of the image that stands, with room for it and to try each order.
pub fn replay_orders<R: Read>(
    source: &mut R,
    orders: &Orders,
    image: &Image,
    words: &mut [u16; MOST_WORDS],
    trial: &mut [u16; MOST_WORDS],
    head: Head,
    tally: &mut Tally,
) -> Result<(), BadRecord> {
    let case = read_case(source, head)?;
    let mut room = [NO_CHANGE; MOST_CHANGES];
    let changes = room.get_mut(..case.changes).ok_or(BadRecord)?;
    read_changes(source, changes)?;
    let held = image.held;
    if !are_places(changes, held) || !ORDER_NUMBERS.contains(&case.number) {
        return Err(BadRecord);
    }
    if case.place >= held || case.span > WORD_END - usize::from(case.first) {
        return Err(BadRecord);
    }
    let words = &mut words[..held];
    words.copy_from_slice(&image.room[..held]);
    count_span(orders, &mut trial[..held], words, changes, case, tally)
}
