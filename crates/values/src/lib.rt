// Values: numbers by their digits, and sums, differences and products in range.
#![tactic(auto)]

ghost use Rattle.std.specs.Prelude.{◌≡◌, ℕ, ◌+◌, ◌-◌, ◌*◌, ◌≤◌, min, Result};
ghost use Rattle.grammar.specs.Sums.{in_range, decimal, both, joins, end_of_range};
ghost use Rattle.grammar.specs.Sums.{plus as plus_of, minus as minus_of, times as times_of};
ghost use Rattle.grammar.specs.declared.NoValue.{NoValue};
ghost use Rattle.tokens.specs.Shown.{Digits};
ghost use Rattle.values.specs.Both.{worked};

use grammar::{FIRST_DIGIT, NoValue, RANGE_END, Sign};

// Numbers are written in base ten.
const TEN: u32 = 10;

// A number as a value.
pub fn in_range(n: u32) -> Result<u16, NoValue>
    ensures { result ≡ in_range n }
{
    if n < RANGE_END {
        return Ok(n as u16);
    }
    Err(NoValue::Beyond)
}

// A number with one digit more, where all past the range are one.
fn more(n: u32, digit: u8) -> u32
    requires { (n ≤ end_of_range) × ((48 ≤ digit) × (digit ≤ 57)) }
    ensures { result ≡ min (n * 10 + (digit - 48)) end_of_range }
{
    (n * TEN + (digit - FIRST_DIGIT) as u32).min(RANGE_END)
}

// The value of some digits.
pub fn number(digits: &[u8]) -> Result<u16, NoValue>
    requires { Digits digits.now }
    ensures { result ≡ in_range (decimal 0 digits.now) }
{
    let mut n: u32 = 0;
    for digit in digits {
        n = more(n, *digit);
    }
    in_range(n)
}

// Two values as a pair: a missing name goes before a value out of range.
fn paired(a: Result<u16, NoValue>, b: Result<u16, NoValue>) -> Result<(u16, u16), NoValue>
    ensures { (f : ℕ → ℕ → Result ℕ NoValue) → worked f result ≡ both f a b }
{
    match (a, b) {
        (Err(NoValue::Missing), _) | (_, Err(NoValue::Missing)) => Err(NoValue::Missing),
        (Ok(x), Ok(y)) => Ok((x, y)),
        _ => Err(NoValue::Beyond),
    }
}

// A sum of two values.
fn plus(a: Result<u16, NoValue>, b: Result<u16, NoValue>) -> Result<u16, NoValue>
    ensures { result ≡ both plus_of a b }
{
    let (x, y) = paired(a, b)?;
    in_range(x as u32 + y as u32)
}

// A difference of two values.
fn minus(a: Result<u16, NoValue>, b: Result<u16, NoValue>) -> Result<u16, NoValue>
    ensures { result ≡ both minus_of a b }
{
    let (x, y) = paired(a, b)?;
    x.checked_sub(y).ok_or(NoValue::Beyond)
}

// A product of two values.
pub fn times(a: Result<u16, NoValue>, b: Result<u16, NoValue>) -> Result<u16, NoValue>
    ensures { result ≡ both times_of a b }
{
    let (x, y) = paired(a, b)?;
    in_range(x as u32 * y as u32)
}

// A product joined to the sum before it.
pub fn joined(sign: Sign, a: Result<u16, NoValue>, b: Result<u16, NoValue>) -> Result<u16, NoValue>
    ensures { result ≡ joins sign a b }
{
    match sign {
        Sign::Plus => plus(a, b),
        Sign::Minus => minus(a, b),
    }
}
