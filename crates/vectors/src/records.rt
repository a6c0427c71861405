// Reads words and the heads of records from a file.
ghost use Rattle.std.specs.Prelude.{◌≤◌, length};

use files::put_words;
use paper::{WORD_BYTES, WORD_END};
use std::fs::File;
use std::io::{self, Read};

// The most words that are read at a time.
pub const CHUNK_WORDS: usize = 4096;

// The most bytes that are read at a time.
const CHUNK_BYTES: usize = WORD_BYTES * CHUNK_WORDS;

// The words of a record's head.
const HEAD_WORDS: usize = 4;

// The bytes of a record's head.
const HEAD_BYTES: usize = WORD_BYTES * HEAD_WORDS;

// Added to the kind of a record that is wrong on purpose.
const WRONG: u16 = 256;

// A file with this many records or more is bad.
pub const RECORDS_END: u64 = 4294967296;

// That a record is bad: its words end too early, or say what no record may.
#[derive(Clone, Copy, PartialEq, Eq)]
pub struct BadRecord;

// What a record is: a case for one of the calls, or the image or the counts that the next cases go by.
#[derive(Clone, Copy, PartialEq, Eq)]
pub enum Kind {
    Check,
    Build,
    Image,
    Orders,
    Event,
    Run,
    Texts,
    Prints,
    Look,
    Counts,
    Report,
    Share,
}

impl Kind {
    // Whether a record of this kind is a case.
    pub fn is_case(self) -> bool {
        !matches!(self, Kind::Image | Kind::Counts)
    }
}

impl TryFrom<u16> for Kind {
    type Error = BadRecord;

    fn try_from(number: u16) -> Result<Kind, BadRecord> {
        match number {
            1 => Ok(Kind::Check),
            2 => Ok(Kind::Build),
            3 => Ok(Kind::Image),
            4 => Ok(Kind::Orders),
            5 => Ok(Kind::Event),
            6 => Ok(Kind::Run),
            7 => Ok(Kind::Texts),
            8 => Ok(Kind::Prints),
            9 => Ok(Kind::Look),
            10 => Ok(Kind::Counts),
            11 => Ok(Kind::Report),
            12 => Ok(Kind::Share),
            _ => Err(BadRecord),
        }
    }
}

// What the words that each record starts with say: the kind, the expected number, and the count of the words under test; and whether it is wrong on purpose, a mark that any case may have.
#[derive(Clone, Copy)]
pub struct Head {
    pub kind: Kind,
    pub wrong: bool,
    pub number: u16,
    pub count: usize,
}

// Opens a file of records, or says why there is none.
pub fn open_records(rt: &HostRuntime, path: &str) -> io::Result<Option<File>> {
    match File::open(rt, path) {
        Ok(file) => Ok(Some(file)),
        Err(error) => {
            say_missing(rt, path, &error)?;
            Ok(None)
        }
    }
}

// Says why the file of a path is not opened, in the system's words for the error, without its number.
fn say_missing(rt: &HostRuntime, path: &str, error: &io::Error) -> io::Result<()> {
    let Ok(text) = format!(in rt.alloc(); "{error}") else {
        return Ok(());
    };
    match text.split_once(" (os error ") {
        Some((words, _)) => eprintln!(rt; "{path}: {words}"),
        None => eprintln!(rt; "{path}: {text}"),
    }
}

// A count from its two words.
pub fn wide(low: u16, high: u16) -> usize {
    usize::from(low) + WORD_END * usize::from(high)
}

// Reads until the bytes are all there, the source ends or a read fails, and answers how many were found: `read_exact` would not tell a file's end from a record cut short.
fn read_full<R: Read>(source: &mut R, bytes: &mut [u8]) -> usize
    ensures { result ≤ length bytes.new }
{
    let mut done: usize = 0;
    while done < bytes.len() {
        match source.read(&mut bytes[done..]) {
            Ok(0) | Err(_) => return done,
            Ok(more) => done += more,
        }
    }
    done
}

// Reads as many words as are read at a time, and answers how many bytes were found; the words are theirs where all were.
fn read_part<R: Read>(source: &mut R, words: &mut [u16]) -> usize
    requires { length words.old ≤ CHUNK_WORDS }
{
    let mut room = [0u8; CHUNK_BYTES];
    let size = WORD_BYTES * words.len();
    let bytes = &mut room[..size];
    let found = read_full(source, bytes);
    if found == size {
        put_words(bytes, words);
    }
    found
}

// Reads as many words as there is room for.
pub fn read_words<R: Read>(source: &mut R, words: &mut [u16]) -> Result<(), BadRecord> {
    for part in words.chunks_mut(CHUNK_WORDS) {
        let size = WORD_BYTES * part.len();
        if read_part(source, part) != size {
            return Err(BadRecord);
        }
    }
    Ok(())
}

// Reads some words, as many as the caller takes.
pub fn read_array<R: Read, const N: usize>(source: &mut R) -> Result<[u16; N], BadRecord> {
    let mut words = [0u16; N];
    read_words(source, &mut words)?;
    Ok(words)
}

// Reads as many bytes as there is room for.
fn read_bytes<R: Read>(source: &mut R, bytes: &mut [u8]) -> Result<(), BadRecord> {
    if read_full(source, bytes) == bytes.len() {
        Ok(())
    } else {
        Err(BadRecord)
    }
}

// Reads a text as long as there is room for, two bytes to a word: an odd one more follows the last of an odd count.
pub fn read_text<R: Read>(source: &mut R, bytes: &mut [u8]) -> Result<(), BadRecord> {
    read_bytes(source, bytes)?;
    let mut last = [0u8; WORD_BYTES];
    read_bytes(source, &mut last[..bytes.len() % WORD_BYTES])
}

// The head of a record from its words.
fn head_of(words: [u16; HEAD_WORDS]) -> Result<Head, BadRecord> {
    let [first, number, low, high] = words;
    let wrong = first >= WRONG;
    let kind = Kind::try_from(if wrong { first - WRONG } else { first })?;
    Ok(Head {
        kind,
        wrong,
        number,
        count: wide(low, high),
    })
}

// Reads the head of the next record, if there is one.
pub fn read_head<R: Read>(source: &mut R) -> Result<Option<Head>, BadRecord> {
    let mut words = [0u16; HEAD_WORDS];
    match read_part(source, &mut words) {
        0 => Ok(None),
        HEAD_BYTES => Ok(Some(head_of(words)?)),
        _ => Err(BadRecord),
    }
}
