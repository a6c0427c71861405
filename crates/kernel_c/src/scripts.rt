// The public calls of `texts` for programs in C and Rust, in numbers. No call requires anything.
ghost use Rattle.std.specs.Prelude.{◌≡◌};
ghost use Rattle.grammar.specs.Texts.{text_number, translation_words, translation_number, translation_text, named_line};
ghost use Rattle.kernel_c.specs.Promises.{TranslatesC, NamesLineC};

use grammar::{Fault, Refusal, Text};
use paper::NOT_REFUSED;
use texts::{judge, translate};

// The numbers of the two texts.
pub const NAMES: u16 = 0;

const SCRIPT: u16 = 1;

// The text where no line is refused: neither of the two.
const NO_TEXT: u16 = 65535;

// How many words a script has, or 0; the number of the refusal, 0 if there is none; and the text of the refused line.
#[repr(C)]
#[derive(Clone, Copy, PartialEq, Eq)]
pub struct Translated {
    pub words: u64,
    pub number: u16,
    pub text: u16,
}

// Where the refused line begins in its text, and how many bytes it has; 0 and 0 where no line is refused.
#[repr(C)]
#[derive(Clone, Copy, PartialEq, Eq)]
pub struct RefusedLine {
    pub start: u64,
    pub bytes: u64,
}

// The number of a text.
fn number_of_text(text: Text) -> u16
    ensures { result ≡ text_number text }
{
    match text {
        Text::Names => NAMES,
        Text::Script => SCRIPT,
    }
}

// A translation, in numbers.
fn tell_translation(answer: Result<usize, (Refusal, Text)>) -> Translated
    ensures words_value { result.words ≡ translation_words answer }
    ensures number_value { result.number ≡ translation_number answer }
    ensures text_value { result.text ≡ translation_text answer }
{
    match answer {
        Ok(words) => Translated {
            words: words as u64,
            number: NOT_REFUSED,
            text: NO_TEXT,
        },
        Err((r, text)) => Translated {
            words: 0,
            number: u16::from(r),
            text: number_of_text(text),
        },
    }
}

// The line that is refused, in numbers.
fn tell_line(judged: Result<usize, Fault>) -> RefusedLine
    ensures start_value { result.start ≡ (named_line judged).from }
    ensures bytes_value { result.bytes ≡ (named_line judged).count }
{
    match judged {
        Ok(_) => RefusedLine { start: 0, bytes: 0 },
        Err((_, line)) => RefusedLine {
            start: line.from as u64,
            bytes: line.count as u64,
        },
    }
}

// Translates a script with a list of names.
#[unsafe(no_mangle)]
pub extern "C" fn kernel_translate<'a>(
    names: &'a [u8],
    script: &'a [u8],
    target: &mut [u16],
) -> Translated
    ensures { TranslatesC names.now script.now target.old result target.new }
{
    tell_translation(translate(names, script, target))
}

// The line that is refused with a target of so many words.
#[unsafe(no_mangle)]
pub extern "C" fn kernel_refused_line<'a>(
    names: &'a [u8],
    script: &'a [u8],
    room: u64,
) -> RefusedLine
    ensures { NamesLineC names.now script.now room result }
{
    tell_line(judge(names, script, room as usize))
}
