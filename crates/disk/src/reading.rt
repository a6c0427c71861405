// Files that are read to their end.
ghost use Rattle.std.specs.Prelude.{◌≡◌, ◌+◌, ◌*◌, ◌<◌, ◌≤◌, length, take};
ghost use Rattle.std.specs.Result.{result_ok};
ghost use Rattle.disk.specs.Bytes.{Loads, LoadsWords, Starts};

use crate::{Failure, fail_by};
use files::{is_odd, put_words};
use paper::WORD_BYTES;
use std::fs::File;
use std::io;
use std::io::{Error, Read};
use std::str::from_utf8;

// The words that are read of an image: one more than any has that is good.
pub const IMAGE_WORDS: usize = 32769;

pub const IMAGE_BYTES: usize = WORD_BYTES * IMAGE_WORDS;

// The bytes that are read at a time of a file whose bytes are only counted.
const LARGE_BYTES: usize = 65536;

// More buffers than any file fills.
const BUFFERS_END: u64 = 1125899906842624;

// The system's number of the error of bytes that are no text; files are opened by text alone.
const NO_TEXT: i32 = 84;

// The start of a file that was read to its end: its count of bytes, and whether an odd count of bytes follows.
#[derive(Clone, Copy)]
pub struct Start {
    pub bytes: usize,
    pub odd: bool,
}

// The text of a path.
pub(crate) fn text_of(path: &[u8]) -> io::Result<&str> {
    from_utf8(path).map_err(|_| Error::from_raw_os_error(NO_TEXT))
}

// Opens a file to read it.
pub fn open_source(rt: &HostRuntime, path: &[u8]) -> io::Result<File> {
    File::open(rt, text_of(path)?)
}

// What was read of a file; where it could not be read, that is said.
fn had<T: Drop>(rt: &HostRuntime, path: &[u8], read: Result<T, Failure>) -> Option<T>
    ensures { result ≡ result_ok read }
{
    match read {
        Ok(found) => Some(found),
        Err(failure) => {
            fail_by(rt, path, failure);
            None
        }
    }
}

// Reads an open file until the buffer is full, the file ends or a read fails, and answers how many bytes are at the buffer's
// start.
pub fn read_full<R: Read>(source: &mut R, buffer: &mut [u8]) -> usize
    ensures { (result ≤ length buffer.new) × (result ≡ length (take result buffer.new)) }
{
    let mut done: usize = 0;
    // How far each turn goes is for the source to say.
    while done < buffer.len() {
        match source.read(&mut buffer[done..]) {
            Ok(0) => return done,
            Ok(more) => done += more,
            Err(_) => return done,
        }
    }
    done
}

// Reads an open file to its end, which may not be longer than the buffer.
fn load_open<R: Read>(source: &mut R, buffer: &mut [u8]) -> Result<usize, Failure>
    ensures { Loads buffer.new (result_ok result) }
{
    let found = read_full(source, buffer);
    let mut more = [0u8; 1];
    if source.read(&mut more)? > 0 {
        return Err(Failure::LongerThan(buffer.len()));
    }
    Ok(found)
}

// Reads a whole file.
fn load_whole(rt: &HostRuntime, path: &[u8], buffer: &mut [u8]) -> Result<usize, Failure>
    ensures { Loads buffer.new (result_ok result) }
{
    let mut file = open_source(rt, path)?;
    load_open(&mut file, buffer)
}

// Reads a whole file; where it cannot, that is said.
pub fn load(rt: &HostRuntime, path: &[u8], buffer: &mut [u8]) -> Option<usize>
    ensures { Loads buffer.new result }
{
    had(rt, path, load_whole(rt, path, buffer))
}

// Whether an odd count of bytes follows in an open file, read to its end.
fn rest_of<R: Read>(source: &mut R) -> io::Result<bool> {
    let mut buffer = [0u8; LARGE_BYTES];
    let mut odd = false;
    for _ in 0..BUFFERS_END {
        let more = source.read(&mut buffer)?;
        if more == 0 {
            return Ok(odd);
        }
        odd = is_odd(odd, more);
    }
    Ok(odd)
}

// Reads the start of an open file, and the file to its end. It has ended where fewer bytes were found than the buffer takes.
fn load_first<R: Read>(source: &mut R, buffer: &mut [u8]) -> Result<Start, Failure>
    ensures { Starts buffer.new (result_ok result) }
{
    let bytes = read_full(source, buffer);
    let rest = rest_of(source)?;
    let odd = rest && bytes == buffer.len();
    Ok(Start { bytes, odd })
}

// Reads the start of an open file, and the file to its end; where it cannot, that is said.
pub fn load_start<R: Read>(
    rt: &HostRuntime,
    path: &[u8],
    source: &mut R,
    buffer: &mut [u8],
) -> Option<Start>
    ensures { Starts buffer.new result }
{
    had(rt, path, load_first(source, buffer))
}

// Puts the bytes of a file into words, where an odd count of bytes follows them or not; there may not be half a word.
fn put_even(bytes: &[u8], odd: bool, words: &mut [u16]) -> Result<usize, Failure>
    requires { length bytes.now < 2 * length words.old + 2 }
    ensures { LoadsWords (length bytes.now) words.new (result_ok result) }
{
    if is_odd(odd, bytes.len()) {
        return Err(Failure::OddBytes);
    }
    Ok(put_words(bytes, words))
}

// Reads the words of a whole file by way of a buffer; there may not be half a word.
fn load_all_words(
    rt: &HostRuntime,
    path: &[u8],
    buffer: &mut [u8],
    words: &mut [u16],
) -> Result<usize, Failure>
    requires { length buffer.old < 2 * length words.old + 2 }
    ensures { LoadsWords (length buffer.old) words.new (result_ok result) }
{
    let found = load_whole(rt, path, buffer)?;
    put_even(&buffer[..found], false, words)
}

// Reads the first words of a file by way of a buffer, and the file to its end; there may not be half a word.
fn load_first_words(
    rt: &HostRuntime,
    path: &[u8],
    buffer: &mut [u8],
    words: &mut [u16],
) -> Result<usize, Failure>
    requires { length buffer.old < 2 * length words.old + 2 }
    ensures { LoadsWords (length buffer.old) words.new (result_ok result) }
{
    let mut file = open_source(rt, path)?;
    let start = load_first(&mut file, buffer)?;
    put_even(&buffer[..start.bytes], start.odd, words)
}

// Reads the words of a whole file by way of a buffer; where it cannot, or there is half a word, that is said.
pub fn load_words(
    rt: &HostRuntime,
    path: &[u8],
    buffer: &mut [u8],
    words: &mut [u16],
) -> Option<usize>
    requires { length buffer.old < 2 * length words.old + 2 }
    ensures { LoadsWords (length buffer.old) words.new result }
{
    had(rt, path, load_all_words(rt, path, buffer, words))
}

// Reads the first words of a file by way of a buffer, and the file to its end; where it cannot, or there is half a word, that is
// said.
pub fn load_image(
    rt: &HostRuntime,
    path: &[u8],
    buffer: &mut [u8],
    words: &mut [u16],
) -> Option<usize>
    requires { length buffer.old < 2 * length words.old + 2 }
    ensures { LoadsWords (length buffer.old) words.new result }
{
    had(rt, path, load_first_words(rt, path, buffer, words))
}
