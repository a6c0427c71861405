// The changes that a case leaves in what it goes by: the words of an image, or counts.
ghost use Rattle.std.specs.Prelude.{◌≡◌, ◌≤◌, true, length};
ghost use Rattle.vectors.specs.Words.{with_changes};

use crate::items::Item;
use crate::records::{BadRecord, read_array, read_words};
use std::io::Read;

// The most changes that a record of orders may list.
pub const MOST_CHANGES: usize = 16;

// The words of a change of a word, and the most that a record of orders may list.
const CHANGE_SIZE: usize = 2;

const CHANGE_WORDS: usize = CHANGE_SIZE * MOST_CHANGES;

// The words of a count.
const COUNT_SIZE: usize = 2;

// The most counts that are read at a time, and their words.
const CHUNK_COUNTS: usize = 256;

const COUNT_WORDS: usize = COUNT_SIZE * CHUNK_COUNTS;

// What the high word of a count is worth.
const HIGH: u32 = 65536;

// A count from its two words.
fn count_of(low: u16, high: u16) -> u32 {
    u32::from(low) + HIGH * u32::from(high)
}

// Reads as many counts as there is room for, no more than are read at a time.
fn read_counts<R: Read>(source: &mut R, counts: &mut [u32]) -> Result<(), BadRecord>
    requires { length counts.old ≤ CHUNK_COUNTS }
{
    let mut room = [0u16; COUNT_WORDS];
    let words = &mut room[..COUNT_SIZE * counts.len()];
    read_words(source, words)?;
    for (count, pair) in counts.iter_mut().zip(words.chunks_exact(COUNT_SIZE)) {
        if let [low, high] = *pair {
            *count = count_of(low, high);
        }
    }
    Ok(())
}

// What one place holds after a case.
#[derive(Clone, Copy)]
pub struct Change<T> {
    pub place: usize,
    pub item: T,
}

// What cases go by, as files have it.
pub trait Stored: Item {
    // Reads as many as there is room for.
    fn read_all<R: Read>(source: &mut R, items: &mut [Self]) -> Result<(), BadRecord>;

    // Reads what one place then holds.
    fn read_change<R: Read>(source: &mut R) -> Result<Change<Self>, BadRecord>;
}

impl Stored for u16 {
    fn read_all<R: Read>(source: &mut R, items: &mut [u16]) -> Result<(), BadRecord> {
        read_words(source, items)
    }

    fn read_change<R: Read>(source: &mut R) -> Result<Change<u16>, BadRecord> {
        let [place, item] = read_array::<R, 2>(source)?;
        Ok(Change {
            place: usize::from(place),
            item,
        })
    }
}

impl Stored for u32 {
    fn read_all<R: Read>(source: &mut R, items: &mut [u32]) -> Result<(), BadRecord> {
        for part in items.chunks_mut(CHUNK_COUNTS) {
            read_counts(source, part)?;
        }
        Ok(())
    }

    fn read_change<R: Read>(source: &mut R) -> Result<Change<u32>, BadRecord> {
        let [place, low, high] = read_array::<R, 3>(source)?;
        Ok(Change {
            place: usize::from(place),
            item: count_of(low, high),
        })
    }
}

// Reads as many changes of words as there is room for, no more than a record of orders may list.
fn read_part<R: Read>(source: &mut R, changes: &mut [Change<u16>]) -> Result<(), BadRecord>
    requires { length changes.old ≤ MOST_CHANGES }
{
    let mut room = [0u16; CHANGE_WORDS];
    let words = &mut room[..CHANGE_SIZE * changes.len()];
    read_words(source, words)?;
    for (change, pair) in changes.iter_mut().zip(words.chunks_exact(CHANGE_SIZE)) {
        if let [place, item] = *pair {
            *change = Change {
                place: usize::from(place),
                item,
            };
        }
    }
    Ok(())
}

// Reads as many changes of words as there is room for.
pub fn read_changes<R: Read>(source: &mut R, changes: &mut [Change<u16>]) -> Result<(), BadRecord> {
    for part in changes.chunks_mut(MOST_CHANGES) {
        read_part(source, part)?;
    }
    Ok(())
}

// Whether the places of changes ascend and lie in an image of so many words.
pub fn are_places(changes: &[Change<u16>], words: usize) -> bool {
    changes.is_sorted_by(|a, b| a.place < b.place) && changes.iter().all(|c| c.place < words)
}

// Takes changes back in the words of an image, and answers whether each was made: a yes means that the words were those that it leaves, with these changes.
pub fn take_back(words: &mut [u16], image: &[u16], changes: &[Change<u16>]) -> bool
    requires { length words.old ≡ length image.now }
    ensures { result ≡ true → with_changes words.new changes.now ≡ words.old }
{
    for change in changes {
        let place = change.place;
        if place >= words.len() || words[place] != change.item {
            return false;
        }
        words[place] = image[place];
    }
    true
}

// Makes the next count changes of a file in what cases go by, where their places ascend and lie in it.
pub fn make_changes<R: Read, T: Stored>(
    source: &mut R,
    items: &mut [T],
    count: usize,
) -> Result<(), BadRecord> {
    let mut least: usize = 0;
    for _ in 0..count {
        let change = T::read_change(source)?;
        let place = change.place;
        if place < least || place >= items.len() {
            return Err(BadRecord);
        }
        items[place] = change.item;
        least = place + 1;
    }
    Ok(())
}
