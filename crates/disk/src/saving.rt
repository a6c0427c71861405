// Words that are written as a whole file.
ghost use Rattle.std.specs.Prelude.{◌≡◌, ◌+◌, ◌*◌, ◌<◌, ◌≤◌, length, take};
ghost use Rattle.disk.specs.Bytes.{chunk, chunk_bytes, bytes_of, beside_bytes};

use crate::reading::text_of;
use crate::{Failure, Outcome, fail, fail_by, say, say_number};
use paper::WORD_BYTES;
use runner_lines::put_text;
use std::fs::{File, OpenOptions, remove_file, rename};
use std::io;
use std::io::{Error, ErrorKind, Seek, SeekFrom, Write};
use std::process::id;

// The words that are written at a time.
const CHUNK_WORDS: usize = 32768;

const CHUNK_BYTES: usize = 65536;

// The most bytes of a path beside which another fits.
const MOST_PATH: usize = 4088;

const BESIDE_BYTES: usize = 4095;

// The last bytes of a path beside another, digits that are chosen, and how many paths they make.
const CHOSEN: usize = 6;

const CHOICES: u32 = 1000000;

const TEN: u32 = 10;

const FIRST_DIGIT: u8 = 48;

// The system's number of the error of a path that is taken.
const TAKEN: i32 = 17;

// Puts words into bytes, the low byte first.
fn put_bytes(words: &[u16], bytes: &mut [u8; CHUNK_BYTES])
    requires words_len_bound { length words.now ≤ chunk }
    requires bytes_len { length bytes.old ≡ chunk_bytes }
    ensures bytes_len_2 { length bytes.new ≡ chunk_bytes }
    ensures bytes_after { take (2 * length words.now) bytes.new ≡ bytes_of words.now }
{
    for (k, word) in words.iter().enumerate() {
        let [low, high] = word.to_le_bytes();
        bytes[WORD_BYTES * k] = low;
        bytes[WORD_BYTES * k + 1] = high;
    }
}

// Writes words to an open file.
fn write_words<W: Write>(file: &mut W, words: &[u16]) -> io::Result<()> {
    let mut bytes = [0u8; CHUNK_BYTES];
    for chunk in words.chunks(CHUNK_WORDS) {
        put_bytes(chunk, &mut bytes);
        file.write_all(&bytes[..WORD_BYTES * chunk.len()])?;
    }
    Ok(())
}

// Whether an open file is a plain one, which alone can be given the length that it has.
fn is_plain(file: &mut File) -> bool {
    match file.seek(SeekFrom::End(0)) {
        Ok(end) => file.set_len(end).is_ok(),
        Err(_) => false,
    }
}

// Opens a file that is there, to write at its end.
fn open_append(rt: &HostRuntime, path: &[u8]) -> io::Result<File> {
    OpenOptions::new().append(true).open(rt, text_of(path)?)
}

// What a path leads to that words can be written to, open; or none where it is a plain file, there or yet to be made.
fn other_than_plain(rt: &HostRuntime, path: &[u8]) -> io::Result<Option<File>> {
    match open_append(rt, path) {
        Ok(mut file) => {
            if is_plain(&mut file) {
                return Ok(None);
            }
            Ok(Some(file))
        }
        Err(error) if error.kind() == ErrorKind::NotFound => Ok(None),
        Err(error) => Err(error),
    }
}

// Puts a path beside another, the last bytes of which `create_beside` chooses, and answers how long it is.
fn put_beside(path: &[u8], beside: &mut [u8]) -> usize
    requires { length path.now + beside_bytes ≤ length beside.old }
    ensures { (result ≤ length beside.new) × (result ≡ length (take result beside.new)) }
{
    let at = put_text(beside, 0, path);
    put_text(beside, at, b".XXXXXX")
}

// Puts the last digits of a number in the place of the last bytes of a path.
fn choose(beside: &mut [u8], number: u32) {
    let mut rest = number;
    for digit in beside.iter_mut().rev().take(CHOSEN) {
        *digit = FIRST_DIGIT + (rest % TEN) as u8;
        rest /= TEN;
    }
}

// Makes a file of a path that no other has.
fn create_new(rt: &HostRuntime, path: &[u8]) -> io::Result<File> {
    OpenOptions::new()
        .write(true)
        .create_new(true)
        .open(rt, text_of(path)?)
}

// Makes a file of a path that no other has, with the mode of new files; the path's last bytes are chosen.
fn create_beside(rt: &HostRuntime, beside: &mut [u8]) -> io::Result<File> {
    let first = id(rt.process());
    for k in 0..CHOICES {
        choose(beside, first.wrapping_add(k));
        match create_new(rt, beside) {
            Err(error) if error.kind() == ErrorKind::AlreadyExists => {}
            made => return made,
        }
    }
    Err(Error::from_raw_os_error(TAKEN))
}

// Writes words to a plain file and closes it. What of them could not be stored is told before that.
fn write_plain(mut file: File, words: &[u16]) -> io::Result<()> {
    write_words(&mut file, words)?;
    file.sync_data()
}

// Gives the file of one path another path.
fn move_beside(rt: &HostRuntime, beside: &[u8], path: &[u8]) -> io::Result<()> {
    rename(rt, text_of(beside)?, text_of(path)?)
}

// Leaves no file of a path.
fn remove(rt: &HostRuntime, path: &[u8]) {
    if let Ok(text) = text_of(path) {
        let _ = remove_file(rt, text);
    }
}

// Writes words to the open file of one path, which then gets another path.
fn write_moved(
    rt: &HostRuntime,
    beside: &[u8],
    file: File,
    path: &[u8],
    words: &[u16],
) -> io::Result<()> {
    write_plain(file, words)?;
    move_beside(rt, beside, path)
}

// Gives words the file of one path, which then gets another path; where that fails, it is said, and then no file is left of it.
fn save_by(rt: &HostRuntime, beside: &[u8], file: File, path: &[u8], words: &[u16]) -> Outcome {
    match write_moved(rt, beside, file, path, words) {
        Ok(()) => Outcome::Done,
        Err(error) => {
            fail(rt, path, error);
            remove(rt, beside);
            Outcome::Unwritten
        }
    }
}

// Writes words as a plain file by way of one beside it, so that a file that is there stays where that fails.
fn save_plain(rt: &HostRuntime, path: &[u8], words: &[u16]) -> Result<Outcome, Failure> {
    if MOST_PATH < path.len() {
        return Err(Failure::LongPath);
    }
    let mut room = [0u8; BESIDE_BYTES];
    let end = put_beside(path, &mut room);
    let beside = &mut room[..end];
    let file = create_beside(rt, beside)?;
    Ok(save_by(rt, beside, file, path, words))
}

// Writes words to an open file; where that fails, it is said before the file is closed.
fn save_open(rt: &HostRuntime, path: &[u8], mut file: File, words: &[u16]) -> Outcome {
    match write_words(&mut file, words) {
        Ok(()) => Outcome::Done,
        Err(error) => {
            fail(rt, path, error);
            Outcome::Unwritten
        }
    }
}

// Writes words to what a path leads to, and closes it.
fn save_to(rt: &HostRuntime, path: &[u8], words: &[u16]) -> Result<Outcome, Failure> {
    match other_than_plain(rt, path)? {
        Some(file) => Ok(save_open(rt, path, file, words)),
        None => save_plain(rt, path, words),
    }
}

// Says how many words a file has.
fn say_saved(rt: &HostRuntime, path: &[u8], words: usize) {
    say(rt, path);
    say(rt, b": ");
    say_number(rt, words);
    say(rt, b" words\n");
}

// Writes words to what a path leads to; where that fails, it is said.
pub fn save_at(rt: &HostRuntime, path: &[u8], words: &[u16]) -> Outcome {
    match save_to(rt, path, words) {
        Ok(saved) => saved,
        Err(failure) => {
            fail_by(rt, path, failure);
            Outcome::Unwritten
        }
    }
}

// Writes words as a whole file, and says how many.
pub fn save(rt: &HostRuntime, path: &[u8], words: &[u16]) -> Outcome {
    let saved = save_at(rt, path, words);
    if let Outcome::Done = saved {
        say_saved(rt, path, words.len());
    }
    saved
}
