// The report of the counts: its table on standard output, its chart as a file.
ghost use Rattle.std.specs.Prelude.{◌≤◌, length};
ghost use Rattle.disk.specs.Bytes.{chunk_bytes};

use crate::lists::put_all;
use disk::{Outcome, ended, save_at, say};
use paper::{COUNTS, WORD_BYTES};
use reporting::{put_chart, put_table};
use std::io;
use std::io::{Cursor, Write};

// The room for a table or a chart: what a file is given at a time. It stays an array: the memory of the programs is fixed.
const ROOM_BYTES: usize = 65536;

const ROOM_WORDS: usize = 32768;

// A page that is written from its start on, as far as its room goes.
type Page = Cursor<[u8; ROOM_BYTES]>;

// A page of which nothing is written.
fn blank_page() -> Page {
    Cursor::new([0u8; ROOM_BYTES])
}

// What is written of a page.
fn text_of(page: &Page) -> &[u8]
    ensures { length result.now ≤ chunk_bytes }
{
    let room = page.get_ref();
    let end = (page.position() as usize).min(room.len());
    &room[..end]
}

// Says that a report is too long for its room.
fn too_long(rt: &HostRuntime) -> Outcome {
    say(rt, b"the report is too long\n");
    Outcome::Unwritten
}

// Prints the table of so many tasks.
pub fn print_table(rt: &HostRuntime, counts: &[u32; COUNTS], tasks: usize) -> Outcome {
    let mut page = blank_page();
    match put_table(&mut page, counts, tasks) {
        Ok(()) => ended(rt, rt.stdout().write_all(text_of(&page))),
        Err(_) => too_long(rt),
    }
}

// Saves a text of whole words.
fn save_text(rt: &HostRuntime, path: &[u8], text: &[u8]) -> Outcome
    requires { length text.now ≤ chunk_bytes }
{
    let mut words = [0u16; ROOM_WORDS];
    let count = put_all(text, &mut words);
    save_at(rt, path, &words[..count])
}

// Puts the chart as whole words: with one more line end where its bytes are not.
fn put_even(page: &mut Page, counts: &[u32; COUNTS], tasks: usize) -> io::Result<()> {
    put_chart(page, counts, tasks)?;
    if text_of(page).len() % WORD_BYTES == 0 {
        return Ok(());
    }
    page.write_all(b"\n")
}

// Saves the chart of so many tasks.
pub fn save_chart(rt: &HostRuntime, path: &[u8], counts: &[u32; COUNTS], tasks: usize) -> Outcome {
    let mut page = blank_page();
    match put_even(&mut page, counts, tasks) {
        Ok(()) => save_text(rt, path, text_of(&page)),
        Err(_) => too_long(rt),
    }
}
