// Up to eight bytes of a text in one number, the first byte lowest: decimal digits, and bytes that are written together.
#![tactic(auto)]

ghost use Rattle.std.specs.Prelude.{◌≡◌, ◌++◌, ◌+◌, ◌≤◌, length};
ghost use Rattle.paper.specs.Runner.{decimal, newline};
ghost use Rattle.packing.specs.Packed.{bytes_of, five, Placed};

// Bytes in one number, and how many they are. A number and no array of bytes, since registers are added to it in one sum and eight
// bytes are one store: names copied byte by byte took more than twice the time (docs/SPEED.md, Printing words).
#[derive(Clone, Copy)]
pub struct Packed {
    pub value: u64,
    pub bytes: usize,
}

// The most bytes of such a number.
const EIGHT: usize = 8;

// The bits of a byte, and the most digits of a word.
const BYTE_BITS: u64 = 8;

const MOST_DIGITS: usize = 5;

// The most that one digit, two, three and four can say.
const ONE_DIGIT: u16 = 9;

const TWO_DIGITS: u16 = 99;

const THREE_DIGITS: u16 = 999;

const FOUR_DIGITS: u16 = 9999;

// How many decimal digits a number has.
pub fn digits(n: u16) -> usize
    ensures { result ≡ length (decimal n) }
{
    1 + usize::from(n > ONE_DIGIT)
        + usize::from(n > TWO_DIGITS)
        + usize::from(n > THREE_DIGITS)
        + usize::from(n > FOUR_DIGITS)
}

// Five digits of a number, with zeros in front, and the end of a line.
fn five_digits(n: u16) -> u64
    ensures { result ≡ five n }
{
    let digits = [
        (n / 10000) as u8,
        (n / 1000 % 10) as u8,
        (n / 100 % 10) as u8,
        (n / 10 % 10) as u8,
        (n % 10) as u8,
        0,
        0,
        0,
    ];
    u64::from_le_bytes(digits) + u64::from_le_bytes(*b"00000\n\0\0")
}

// The decimal digits of a number, and the end of a line.
pub fn number(n: u16) -> Packed
    ensures result_value { bytes_of result ≡ decimal n ++ newline }
    ensures bytes_bound { result.bytes ≤ 8 }
{
    let count = digits(n);
    Packed {
        value: five_digits(n) >> (BYTE_BITS * (MOST_DIGITS - count) as u64),
        bytes: count + 1,
    }
}

// Writes the bytes of a number, and answers where the next byte goes; those from there up to the end may be altered too. Eight
// bytes are one store, and fewer are copied only where eight do not fit.
pub fn put_packed(text: &mut [u8], at: usize, p: Packed, end: usize) -> usize
    requires bytes_bound { p.bytes ≤ 8 }
    requires bytes_bound_2 { at + p.bytes ≤ end }
    requires end_in_bounds { end ≤ length text.old }
    ensures value { result ≡ at + length (bytes_of p) }
    ensures placed { Placed text.old at (bytes_of p) end text.new }
{
    if at + EIGHT <= end {
        text[at..at + EIGHT].copy_from_slice(&p.value.to_le_bytes());
        return at + p.bytes;
    }
    let all = p.value.to_le_bytes();
    text[at..at + p.bytes].copy_from_slice(&all[..p.bytes]);
    at + p.bytes
}
