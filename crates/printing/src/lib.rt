// The public calls that print a list of words as a text: how many bytes it needs, and the text itself.
#![tactic(auto)]

ghost use Rattle.std.specs.Prelude.{◌≡◌, ◌+◌, ◌*◌, ◌<◌, ◌≤◌, length, drop};
ghost use Rattle.grammar.specs.Printing.{printed, most_printed};
ghost use Rattle.grammar.specs.Promises.{Prints, MeasuresText};
ghost use Rattle.packing.specs.Packed.{Placed};
ghost use Rattle.rows.specs.Rows.{rows_end};
ghost use Rattle.printing.specs.Pieces.{piece, row_first, is_order, most_piece, RowFor, Inscribed};

use grammar::Refusal;
use packing::{digits, number, put_packed};
use spelling::{front_of, row_bytes, row_of, seconds, tail_of};

// The longest list that is printed: as long as the longest segment.
const MOST_PRINTED: usize = 32715;

// The row of a word where a line starts at it: an order whose second word is missing is a number.
fn row_at(words: &[u16], k: usize) -> usize
    requires { k < length words.now }
    ensures value { result ≡ row_first (drop k words.now) }
    ensures upper_bound { result < rows_end }
{
    let row = row_of(words[k]);
    if k + 1 < words.len() {
        return row;
    }
    if seconds(row) == 1 {
        return 0;
    }
    row
}

// 1 for the row of an order, and 0 for that of a number.
fn order_row(row: usize) -> usize
    ensures { result ≡ is_order row }
{
    usize::from(row != 0)
}

// How many bytes a word gives to the text; starts is 1 where a line starts at it, and 0 where it is a second word. Both are
// numbers, since a branch on what a word is was slower.
fn piece_bytes(row: usize, starts: usize, word: u16) -> usize
    requires row_lt_rows_end { row < rows_end }
    requires starts_bound { starts ≤ 1 }
    requires row_for { RowFor row word }
    ensures value { result ≡ length (piece (row * starts) word) }
    ensures upper_bound { result ≤ most_piece }
{
    let order = starts * order_row(row);
    order * row_bytes(row) + (1 - order) * (digits(word) + 1)
}

// How many bytes the text of a list has.
fn text_bytes(words: &[u16]) -> usize
    requires { length words.now ≤ most_printed }
    ensures { result ≡ length (printed words.now) }
{
    let mut bytes: usize = 0;
    let mut starts: usize = 1;
    for k in 0..words.len() {
        let row = row_at(words, k);
        bytes += piece_bytes(row, starts, words[k]);
        starts = 1 - starts * seconds(row);
    }
    bytes
}

// Writes what a word gives to the text, by its row, and answers where the next byte goes.
fn put_piece(text: &mut [u8], at: usize, row: usize, word: u16, end: usize) -> usize
    requires row_for { RowFor row word }
    requires word_bound { at + length (piece row word) ≤ end }
    requires end_in_bounds { end ≤ length text.old }
    ensures value { result ≡ at + length (piece row word) }
    ensures placed { Placed text.old at (piece row word) end text.new }
{
    if row == 0 {
        return put_packed(text, at, number(word), end);
    }
    let tail = put_packed(text, at, front_of(row), end);
    put_packed(text, tail, tail_of(row, word), end)
}

// Writes the text of a list, which ends at a place.
fn put_words(words: &[u16], text: &mut [u8], end: usize)
    requires end_value { end ≡ length (printed words.now) }
    requires end_in_bounds { end ≤ length text.old }
    ensures { Inscribed words.now text.old text.new }
{
    let mut at: usize = 0;
    let mut starts: usize = 1;
    for k in 0..words.len() {
        let row = row_at(words, k);
        at = put_piece(text, at, row * starts, words[k], end);
        starts = 1 - starts * seconds(row);
    }
}

// How many bytes the text of a list needs.
pub fn print_size(words: &[u16]) -> Result<usize, Refusal>
    ensures { MeasuresText words.now result }
{
    if MOST_PRINTED < words.len() {
        return Err(Refusal::NoRoom);
    }
    Ok(text_bytes(words))
}

// Prints a list of words into a buffer; a refusal alters none of its bytes.
pub fn print(words: &[u16], text: &mut [u8]) -> Result<usize, Refusal>
    ensures { Prints words.now text.old result text.new }
{
    let bytes = print_size(words)?;
    if text.len() < bytes {
        return Err(Refusal::NoRoom);
    }
    put_words(words, text, bytes);
    Ok(bytes)
}
