// A plan's file: its words, and the verdict on it.
#![tactic(auto)]

ghost use Rattle.std.specs.Prelude.{◌≡◌, true, ◌+◌, ◌*◌, ◌<◌, ◌≤◌, length, take, Ok};
ghost use Rattle.paper.specs.Runner.{word as word_by, words_of};
ghost use Rattle.paper.specs.Numbers.{check_plan};
ghost use Rattle.writes.specs.Written.{written};
ghost use Rattle.files.specs.PlanFiles.{OddAfter, enough, Decides};
ghost use Rattle.files.specs.PlanFiles.{ReadsPlan};

use paper::{Refusal, WORD_BYTES};
use plans::verdict;

// The words that are read of a plan's file: more than any has that is accepted.
pub const PLAN_WORDS: usize = 32806;

pub const PLAN_BYTES: usize = WORD_BYTES * PLAN_WORDS;

// What a plan's file comes to: how many words were read, which tell of a refused one why, and the verdict.
#[derive(Clone, Copy)]
pub struct PlanRead {
    pub words: usize,
    pub verdict: Result<(), Refusal>,
}

// A word from its two bytes, the low one first.
pub fn word(low: u8, high: u8) -> u16
    ensures { result ≡ word_by low high }
{
    u16::from_le_bytes([low, high])
}

// Writes the whole words of some bytes, and answers how many there are.
pub fn put_words(bytes: &[u8], words: &mut [u16]) -> usize
    requires { length bytes.now < 2 * length words.old + 2 }
    ensures value { result ≡ length (words_of bytes.now) }
    ensures words_after { words.new ≡ written words.old 0 (words_of bytes.now) }
{
    let mut count: usize = 0;
    for pair in bytes.chunks_exact(WORD_BYTES) {
        words[count] = word(pair[0], pair[1]);
        count += 1;
    }
    count
}

// Whether a count of bytes is odd with so many more, where it was odd before or not.
pub fn is_odd(before: bool, more: usize) -> bool
    ensures { OddAfter before more result }
{
    (more % WORD_BYTES != 0) != before
}

// The verdict on a plan's file that begins with some bytes, of which the words are given; of the rest it asks only whether it has an odd count of bytes.
fn file_verdict(bytes: &[u8], words: &[u16], odd: bool) -> Result<(), Refusal>
    requires { words.now ≡ words_of bytes.now }
    ensures decides { Decides enough bytes.now odd result }
    ensures words_value { result ≡ Ok tt → check_plan words.now ≡ Ok tt }
{
    if is_odd(odd, bytes.len()) {
        return Err(Refusal::BadPlan);
    }
    verdict(words)
}

// Reads a plan's file: the words of the bytes that were found for the buffer, and the verdict on the whole file, whose rest has an odd count of bytes or not.
// The count stands beside the buffer, whose own length says how many bytes were asked for (`ReadsPlan`).
pub fn read_plan(buffer: &[u8], found: usize, odd: bool, words: &mut [u16]) -> PlanRead
    requires found_in_bounds { found ≤ length buffer.now }
    requires enough_in_bounds { enough ≤ length buffer.now }
    requires buffer_len_bound { length buffer.now < 2 * length words.old + 2 }
    requires buffer_len_bound_2 { odd ≡ true → length buffer.now ≤ found }
    ensures { ReadsPlan (length buffer.now) (take found buffer.now) odd words.old words.new result.words result.verdict }
{
    let bytes = &buffer[..found];
    let count = put_words(bytes, words);
    let verdict = file_verdict(bytes, &words[..count], odd);
    PlanRead {
        words: count,
        verdict,
    }
}
