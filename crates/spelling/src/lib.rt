// How a word is spelt where it begins a line: the row of its order, and the bytes of that row as two numbers, the front and the tail.
#![tactic(auto)]

ghost use Rattle.std.specs.Prelude.{◌≡◌, ◌+◌, ◌<◌, ◌≤◌, length};
ghost use Rattle.packing.specs.Packed.{bytes_of};
ghost use Rattle.rows.specs.Rows.{row_of, rows_end, front, tail, second};
ghost use Rattle.spelling.specs.Pieces.{sixteenth_of, tail_at};

use packing::Packed;
use paper::FIELD;
use rows::{FIELD_B, SECOND_WORD, SIXTEENTHS, TAIL, parts_of, row_at};

// The place of the second register, from that of the first.
const THREE_ON: u64 = 16777216;

// The sixteenth of the words that a word lies in; all past the orders are one.
fn sixteenth(word: u16) -> usize
    ensures { result ≡ sixteenth_of word }
{
    ((word / FIELD) as usize).min(SIXTEENTHS - 1)
}

// The row of a word.
pub fn row_of(word: u16) -> usize
    ensures value { result ≡ row_of word }
    ensures upper_bound { result < rows_end }
{
    let row = row_at(sixteenth(word));
    if word % FIELD < parts_of(row).form_word / FIELD_B {
        return row;
    }
    0
}

// 1 where a second word follows, else 0: a number, since what is counted is counted without a branch.
pub fn seconds(row: usize) -> usize
    requires { row < rows_end }
    ensures value { result ≡ second row }
    ensures upper_bound { result ≤ 1 }
{
    (parts_of(row).form_word % FIELD_B / SECOND_WORD) as usize
}

// How many bytes a row has.
pub fn row_bytes(row: usize) -> usize
    requires { row < rows_end }
    ensures value { result ≡ length (front row) + length (tail row) }
    ensures upper_bound { result ≤ 30 }
{
    let form = parts_of(row).form_word;
    (form % TAIL + form % SECOND_WORD / TAIL) as usize
}

// The front of a row: its name, up to the eighth letter.
pub fn front_of(row: usize) -> Packed
    requires { row < rows_end }
    ensures result_value { bytes_of result ≡ front row }
    ensures bytes_bound { result.bytes ≤ 8 }
{
    let parts = parts_of(row);
    Packed {
        value: parts.front_bytes,
        bytes: (parts.form_word % TAIL) as usize,
    }
}

// The tail of the row of a word, with the registers of the word.
pub fn tail_of(row: usize, word: u16) -> Packed
    requires { row ≡ row_of word }
    ensures result_value { bytes_of result ≡ tail_at word }
    ensures bytes_bound { result.bytes ≤ 8 }
{
    let a = (word / FIELD % FIELD) as u64;
    let b = (word % FIELD) as u64;
    let parts = parts_of(row);
    Packed {
        value: parts.tail_bytes + (a + THREE_ON * b) * parts.first_register,
        bytes: (parts.form_word % SECOND_WORD / TAIL) as usize,
    }
}
