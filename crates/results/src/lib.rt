// What orders make of words: results, conditions and flags.
#![tactic(auto)]

ghost use Rattle.std.specs.Prelude.{◌≡◌, ◌+◌, ◌-◌, ◌*◌, ◌%◌, ◌<◌, min, max};
ghost use Rattle.paper.specs.Flags.{flags_of, cc_of as cc_field, error_of as error_field};
ghost use Rattle.paper.specs.Orders.{mod_word as word_mod, on_bits, compared as condition};

use paper::{EQUAL, ERROR, ERROR_END, GREATER, LESS, PENDING, WORD_END};

// Words are counted mod this.
const MODULUS: u32 = WORD_END as u32;

// A number mod 65536.
fn mod_word(v: u32) -> u16
    ensures { result ≡ word_mod v }
{
    (v % MODULUS) as u16
}

// x + y mod 65536.
pub fn sum(x: u16, y: u16) -> u16
    ensures { result ≡ word_mod (x + y) }
{
    mod_word(x as u32 + y as u32)
}

// x - y mod 65536.
pub fn difference(x: u16, y: u16) -> u16
    ensures { result ≡ word_mod (x + 65536 - y) }
{
    mod_word(x as u32 + MODULUS - y as u32)
}

// x times y mod 65536.
pub fn product(x: u16, y: u16) -> u16
    ensures { result ≡ word_mod (x * y) }
{
    mod_word(x as u32 * y as u32)
}

// And, bit by bit.
pub fn both_bits(x: u16, y: u16) -> u16
    ensures { result ≡ on_bits min x y }
{
    x & y
}

// Or, bit by bit.
pub fn either_bit(x: u16, y: u16) -> u16
    ensures { result ≡ on_bits max x y }
{
    x | y
}

// Exclusive or, bit by bit.
pub fn one_bit(x: u16, y: u16) -> u16
    ensures { result ≡ on_bits (λ j k. (j + k) % 2) x y }
{
    x ^ y
}

// The condition that a compare gives: 0 equal, 1 x less, 2 x greater.
pub fn compared(x: u16, y: u16) -> u16
    ensures { result ≡ condition x y }
{
    if x == y {
        return EQUAL;
    }
    if x < y { LESS } else { GREATER }
}

// The flags with another service pending.
pub fn with_pending(f: u16, pending: u16) -> u16
    requires { pending < 16 }
    ensures { result ≡ flags_of (cc_field f) (error_field f) pending }
{
    f % ERROR + ERROR * (f / ERROR % ERROR_END) + PENDING * pending
}

// The flags with another error and nothing pending.
pub fn with_fault(f: u16, error: u16) -> u16
    requires { error < 8 }
    ensures { result ≡ flags_of (cc_field f) error 0 }
{
    f % ERROR + ERROR * error
}

// The error in the flags.
pub fn error_of(f: u16) -> u16
    ensures { result ≡ error_field f }
{
    f / ERROR % ERROR_END
}
