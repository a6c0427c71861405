// The public calls of `printing` for programs in C and Rust, in numbers. No call requires anything.
ghost use Rattle.std.specs.Prelude.{◌≡◌};
ghost use Rattle.grammar.specs.Printing.{printing_bytes, printing_number};
ghost use Rattle.kernel_c.specs.Promises.{PrintsC, MeasuresTextC};

use grammar::Refusal;
use paper::NOT_REFUSED;
use printing::{print, print_size};

// How many bytes a list of words has as a text, or 0; and the number of the refusal, 0 if there is none.
#[repr(C)]
#[derive(Clone, Copy, PartialEq, Eq)]
pub struct Printed {
    pub bytes: u64,
    pub number: u16,
}

// What printing answers, in numbers.
fn tell_printing(answer: Result<usize, Refusal>) -> Printed
    ensures bytes_value { result.bytes ≡ printing_bytes answer }
    ensures number_value { result.number ≡ printing_number answer }
{
    match answer {
        Ok(bytes) => Printed {
            bytes: bytes as u64,
            number: NOT_REFUSED,
        },
        Err(r) => Printed {
            bytes: 0,
            number: u16::from(r),
        },
    }
}

// Prints a list of words as a text.
#[unsafe(no_mangle)]
pub extern "C" fn kernel_print(words: &[u16], text: &mut [u8]) -> Printed
    ensures { PrintsC words.now text.old result text.new }
{
    tell_printing(print(words, text))
}

// How many bytes the text of a list of words has.
#[unsafe(no_mangle)]
pub extern "C" fn kernel_print_size(words: &[u16]) -> Printed
    ensures { MeasuresTextC words.now result }
{
    tell_printing(print_size(words))
}
