// Replays the record of a translation.
ghost use Rattle.std.specs.Prelude.{◌≡◌, true, ◌≤◌, length, take, drop};

use kernel_c::scripts::{NAMES, RefusedLine, Translated, kernel_refused_line, kernel_translate};
use std::io::Read;
use texts::refused_line;
use vectors::records::{BadRecord, Head, read_array, read_text, wide};
use vectors::targets::{is_salted, is_stored, salt_target};

// What a record of a translation says before its names: counts of bytes and words, and what is expected, with where the refused line begins in its text and how many bytes it has.
#[derive(Clone, Copy)]
struct Case {
    names: usize,
    script: usize,
    target: usize,
    salt: u16,
    start: usize,
    bytes: usize,
    words: usize,
    told: Translated,
}

// Reads what a record of a translation says between its head and its names.
fn read_case<R: Read>(source: &mut R, head: Head) -> Result<Case, BadRecord> {
    let [script_low, script_high, target_low, target_high, salt, text] = read_array::<R, 6>(
        source,
    )?;
    let [
        start_low,
        start_high,
        bytes_low,
        bytes_high,
        words_low,
        words_high,
    ] = read_array::<R, 6>(source)?;
    let words = wide(words_low, words_high);
    let told = Translated {
        words: words as u64,
        number: head.number,
        text,
    };
    Ok(Case {
        names: head.count,
        script: wide(script_low, script_high),
        target: wide(target_low, target_high),
        salt,
        start: wide(start_low, start_high),
        bytes: wide(bytes_low, bytes_high),
        words,
        told,
    })
}

// Whether a part is what a text has from a start on: a yes means that all its bytes are.
pub fn is_part(part: &[u8], text: &[u8], start: usize) -> bool
    ensures { result ≡ true → take (length part.now) (drop start text.now) ≡ part.now }
{
    if start > text.len() {
        return false;
    }
    let rest = &text[start..];
    part.len() <= rest.len() && &rest[..part.len()] == part
}

// Whether the refused line is the one expected: where it begins, how many bytes it has, and which.
fn is_line<'a>(names: &'a [u8], script: &'a [u8], room: usize, case: Case) -> bool {
    let expected = RefusedLine {
        start: case.start as u64,
        bytes: case.bytes as u64,
    };
    let part = refused_line(names, script, room);
    if kernel_refused_line(names, script, room as u64) != expected || part.len() != case.bytes {
        return false;
    }
    let text = if case.told.text == NAMES {
        names
    } else {
        script
    };
    is_part(part, text, case.start)
}

// Whether a target is the next words of the file, and its other words are those that it had.
fn is_left<R: Read>(
    source: &mut R,
    target: &[u16],
    words: usize,
    salt: u16,
) -> Result<bool, BadRecord>
    requires { words ≤ length target.now }
{
    let stored = is_stored(source, &target[..words])?;
    Ok(stored && is_salted(target, words, salt))
}

// Whether two texts are translated as their record says, with room for the texts and the target.
pub fn is_translated<R: Read>(
    source: &mut R,
    names: &mut [u8],
    script: &mut [u8],
    target: &mut [u16],
    head: Head,
) -> Result<bool, BadRecord> {
    let case = read_case(source, head)?;
    if case.names >= names.len() || case.script >= script.len() || case.words > case.target {
        return Err(BadRecord);
    }
    let names = &mut names[..case.names];
    let script = &mut script[..case.script];
    let target = target.get_mut(..case.target).ok_or(BadRecord)?;
    read_text(source, names)?;
    read_text(source, script)?;
    salt_target(target, case.salt);
    let told = kernel_translate(names, script, target);
    let left = is_left(source, target, case.words, case.salt)?;
    let lined = is_line(names, script, target.len(), case);
    Ok(told == case.told && left && lined)
}
