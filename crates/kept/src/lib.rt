// What a word is: a name, a register, or an order of this edition or of a later one.
#![tactic(auto)]

ghost use Rattle.std.specs.Prelude.{◌≡◌, ◌≤◌, length};
ghost use Rattle.grammar.specs.Kept.{kept_as};
ghost use Rattle.kept.specs.Keys.{counted, key, kept_by, most_letters, names_register};

use grammar::{Kept, Operands};

// The most letters of an order name.
const MOST_LETTERS: usize = 13;

// A word of letters is a number to this base, its first letter lowest: a counts 1, z counts 26, and any other byte 27.
const BASE: u64 = 28;

const OTHER: u64 = 27;

const BEFORE_A: u8 = b'a' - 1;

// The order names as such numbers. A match on the words themselves is not proved in bearable time: it has a goal for each place
// at which a word can leave all 40 names, and ran for five minutes without an end; four names alone were proved.
const LOAD: u64 = 89024;

const COPY: u64 = 561767;

const FETCH: u64 = 4998930;

const STORE: u64 = 3480755;

const ADD: u64 = 3249;

const SUBTRACT: u64 = 271332956543;

const MULTIPLY: u64 = 343387243289;

const QUOTIENT: u64 = 276697069645;

const REMAINDER: u64 = 6870074683182;

const AND: u64 = 3529;

const OR: u64 = 519;

const XOR: u64 = 14556;

const COMPARE: u64 = 2720214647;

const JUMP: u64 = 362022;

const JUMPEQ: u64 = 296011558;

const JUMPLT: u64 = 351945254;

const JUMPGT: u64 = 348871974;

const CALL: u64 = 272863;

const RETURN: u64 = 252485790;

const SEND: u64 = 98943;

const RECEIVE: u64 = 2793723790;

const INPUT: u64 = 12767057;

const OUTPUT: u64 = 357482651;

const FINISH: u64 = 149570210;

const COMPARESIGNED: u64 = 974565070923460215;

const JUMPBY: u64 = 431850534;

const JUMPBYEQ: u64 = 232221086758;

const JUMPBYLT: u64 = 276073104422;

const JUMPBYGT: u64 = 273663652902;

const SHIFTLEFT: u64 = 7639625945859;

const SHIFTRIGHT: u64 = 214690644785923;

const NEGATE: u64 = 98372554;

// What a byte of a word counts.
fn counts(b: u8) -> u64
    ensures { result ≡ counted b }
{
    if b.is_ascii_lowercase() {
        u64::from(b - BEFORE_A)
    } else {
        OTHER
    }
}

// The number of a word.
fn key_of(word: &[u8]) -> u64
    requires { length word.now ≤ most_letters }
    ensures { result ≡ key word.now }
{
    let mut sum: u64 = 0;
    for k in (0..word.len()).rev() {
        sum = sum * BASE + counts(word[k]);
    }
    sum
}

// The order whose name has this number.
#[tactic(auto, unfolding(crate::specs::Keys::kept_by, crate::specs::Keys::kept_under, crate::specs::Keys::key, crate::specs::Keys::counted, grammar::specs::Kept::kept_words, grammar::specs::Tokens::bytes))]
fn order_of(number: u64) -> Kept
    ensures { result ≡ kept_by number }
{
    match number {
        LOAD => Kept::Order(Operands::RegisterSum, 256),
        COPY => Kept::Order(Operands::Registers, 512),
        FETCH => Kept::Order(Operands::Registers, 768),
        STORE => Kept::Order(Operands::Registers, 1024),
        ADD => Kept::Order(Operands::Registers, 1280),
        SUBTRACT => Kept::Order(Operands::Registers, 1536),
        MULTIPLY => Kept::Order(Operands::Registers, 1792),
        QUOTIENT => Kept::Order(Operands::Registers, 2048),
        REMAINDER => Kept::Order(Operands::Registers, 2304),
        AND => Kept::Order(Operands::Registers, 2560),
        OR => Kept::Order(Operands::Registers, 2816),
        XOR => Kept::Order(Operands::Registers, 3072),
        COMPARE => Kept::Order(Operands::Registers, 3328),
        JUMP => Kept::Order(Operands::Sum, 3584),
        JUMPEQ => Kept::Order(Operands::Sum, 3840),
        JUMPLT => Kept::Order(Operands::Sum, 3856),
        JUMPGT => Kept::Order(Operands::Sum, 3872),
        CALL => Kept::Order(Operands::Sum, 4096),
        RETURN => Kept::Order(Operands::Nothing, 4352),
        SEND => Kept::Order(Operands::Nothing, 4624),
        RECEIVE => Kept::Order(Operands::Nothing, 4640),
        INPUT => Kept::Order(Operands::Nothing, 4656),
        OUTPUT => Kept::Order(Operands::Nothing, 4672),
        FINISH
        | COMPARESIGNED
        | JUMPBY
        | JUMPBYEQ
        | JUMPBYLT
        | JUMPBYGT
        | SHIFTLEFT
        | SHIFTRIGHT
        | NEGATE => Kept::Later,
        _ => Kept::Free,
    }
}

// Whether a word names a register: two bytes, the letter and a digit.
#[tactic(auto, unfolding(crate::specs::Keys::names_register))]
fn names_register(word: &[u8]) -> bool
    ensures { result ≡ names_register word.now }
{
    matches!(word, [b'r', b'0'..=b'7'])
}

// What a word is.
pub fn kept(word: &[u8]) -> Kept
    ensures { result ≡ kept_as word.now }
{
    if MOST_LETTERS < word.len() {
        return Kept::Free;
    }
    if names_register(word) {
        return Kept::Register(u16::from(word[1] - b'0'));
    }
    order_of(key_of(word))
}
