// Replays the record of a list that is printed.
ghost use Rattle.std.specs.Prelude.{◌≡◌, true, ◌≤◌, length};
ghost use Rattle.replay_texts.specs.Buffers.{Again};

use crate::translating::is_part;
use kernel_c::prints::{Printed, kernel_print, kernel_print_size};
use std::io::Read;
use vectors::records::{BadRecord, Head, read_array, read_text, read_words, wide};
use vectors::targets::{is_salted, salt_target};

// What a record of a print says before its list: the words of the list and how many of them are stored, the same of the text's bytes, the buffer's bytes and their salt, and what is expected.
#[derive(Clone, Copy)]
struct Case {
    list: usize,
    stored: usize,
    text: usize,
    part: usize,
    room: usize,
    salt: u16,
    told: Printed,
    size: Printed,
}

// Reads what a record of a print says between its head and its list.
fn read_case<R: Read>(source: &mut R, head: Head) -> Result<Case, BadRecord> {
    let [
        stored_low,
        stored_high,
        room_low,
        room_high,
        salt,
        size_number,
    ] = read_array::<R, 6>(source)?;
    let [
        size_low,
        size_high,
        text_low,
        text_high,
        part_low,
        part_high,
    ] = read_array::<R, 6>(source)?;
    let text = wide(text_low, text_high);
    let told = Printed {
        bytes: text as u64,
        number: head.number,
    };
    let size = Printed {
        bytes: wide(size_low, size_high) as u64,
        number: size_number,
    };
    Ok(Case {
        list: head.count,
        stored: wide(stored_low, stored_high),
        text,
        part: wide(part_low, part_high),
        room: wide(room_low, room_high),
        salt,
        told,
        size,
    })
}

// Whether bytes are their first part again and again: a yes means that each byte past it is the one a part before.
pub fn is_again(bytes: &[u8], part: usize) -> bool
    ensures { result ≡ true → Again part bytes.now }
{
    let len = bytes.len();
    part > len || bytes[part..] == bytes[..len - part]
}

// Whether a text is a stored part again and again.
fn is_text(text: &[u8], part: &[u8]) -> bool {
    is_part(part, text, 0) && is_again(text, part.len())
}

// Whether a buffer has a text from its first byte on, a stored part again and again, and is as salted past it.
fn has_text(buffer: &[u8], bytes: usize, part: &[u8], salt: u16) -> bool
    requires { bytes ≤ length buffer.now }
{
    is_text(&buffer[..bytes], part) && is_salted(buffer, bytes, salt)
}

// Reads a list: what is stored of it, again and again.
fn read_list<R: Read>(source: &mut R, list: &mut [u16], stored: usize) -> Result<(), BadRecord> {
    let (first, rest) = list.split_at_mut_checked(stored).ok_or(BadRecord)?;
    read_words(source, first)?;
    for (word, again) in rest.iter_mut().zip(first.iter().cycle()) {
        *word = *again;
    }
    Ok(())
}

// Whether a list is printed as its record says, with room for the list, for its text and for the part of it that is stored.
pub fn is_printed<R: Read>(
    source: &mut R,
    words: &mut [u16],
    buffer: &mut [u8],
    part: &mut [u8],
    head: Head,
) -> Result<bool, BadRecord> {
    let case = read_case(source, head)?;
    if case.part >= part.len() || case.text > case.room {
        return Err(BadRecord);
    }
    let list = words.get_mut(..case.list).ok_or(BadRecord)?;
    let buffer = buffer.get_mut(..case.room).ok_or(BadRecord)?;
    let part = &mut part[..case.part];
    read_list(source, list, case.stored)?;
    read_text(source, part)?;
    salt_target(buffer, case.salt);
    let told = kernel_print(list, buffer);
    let size = kernel_print_size(list);
    let printed = has_text(buffer, case.text, part, case.salt);
    Ok(told == case.told && size == case.size && printed)
}
