// A target before and after a call: as salted, and as the file has it.
ghost use Rattle.std.specs.Prelude.{◌≡◌, ℕ, true, ◌≤◌, length};
ghost use Rattle.vectors.specs.Words.{salted_word, salted_byte, AsSalted};

use crate::items::Item;
use crate::records::{BadRecord, CHUNK_WORDS, read_words};
use paper::WORD_END;
use std::io::Read;

// A byte is less than this.
const BYTE_END: usize = 256;

// How much each item of a salted target adds to the one before.
const SALT_STEP: usize = 31;

// What a salted target is made of: words, or bytes.
pub trait Salted: Item {
    // What stands at a place.
    ghost salted_item: { ℕ → ℕ → Self };

    fn salted(place: usize, salt: u16) -> Self
        ensures { result ≡ salted_item place salt };
}

impl Salted for u16 {
    ghost salted_item = { salted_word };

    fn salted(place: usize, salt: u16) -> u16 {
        ((place % WORD_END * SALT_STEP + usize::from(salt)) % WORD_END) as u16
    }
}

impl Salted for u8 {
    ghost salted_item = { salted_byte };

    fn salted(place: usize, salt: u16) -> u8 {
        ((place % BYTE_END * SALT_STEP + usize::from(salt)) % BYTE_END) as u8
    }
}

// Salts each item of a target.
pub fn salt_target<T: Salted>(target: &mut [T], salt: u16)
    ensures { AsSalted T.salted_item 0 salt target.new }
{
    for (place, item) in target.iter_mut().enumerate() {
        *item = T::salted(place, salt);
    }
}

// Whether each item of a target from a place on is as salted: a yes means that all are.
pub fn is_salted<T: Salted>(target: &[T], from: usize, salt: u16) -> bool
    ensures { result ≡ true → AsSalted T.salted_item from salt target.now }
{
    for place in from..target.len() {
        if target[place] != T::salted(place, salt) {
            return false;
        }
    }
    true
}

// Whether some words are the next ones of the file.
fn is_stored_part<R: Read>(source: &mut R, words: &[u16]) -> Result<bool, BadRecord>
    requires { length words.now ≤ CHUNK_WORDS }
{
    let mut room = [0u16; CHUNK_WORDS];
    let stored = &mut room[..words.len()];
    read_words(source, stored)?;
    Ok(words == stored)
}

// Whether a target is the next words of the file.
pub fn is_stored<R: Read>(source: &mut R, target: &[u16]) -> Result<bool, BadRecord> {
    let mut same = true;
    for part in target.chunks(CHUNK_WORDS) {
        same &= is_stored_part(source, part)?;
    }
    Ok(same)
}
