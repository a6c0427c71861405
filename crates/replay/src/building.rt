// Replays the record of a build.
ghost use Rattle.std.specs.Prelude.{◌≡◌, true};
ghost use Rattle.paper.specs.Calls.{size_number as numbered, size_value};

use paper::{NOT_REFUSED, Refusal};
use std::io::Read;
use vectors::records::{BadRecord, Head, read_array, read_words, wide};
use vectors::targets::{is_salted, is_stored, salt_target};

// What a record of a build says before its plan: counts of words, and what is expected.
#[derive(Clone, Copy)]
struct Case {
    number: u16,
    plan: usize,
    target: usize,
    salt: u16,
    size_number: u16,
    size: usize,
}

// Reads what a record of a build says between its head and its plan.
fn read_case<R: Read>(source: &mut R, head: Head) -> Result<Case, BadRecord> {
    let [
        target_low,
        target_high,
        salt,
        size_number,
        size_low,
        size_high,
    ] = read_array::<R, 6>(source)?;
    Ok(Case {
        number: head.number,
        plan: head.count,
        target: wide(target_low, target_high),
        salt,
        size_number,
        size: wide(size_low, size_high),
    })
}

// Whether a target after the build holds what it must.
fn is_left<R: Read>(source: &mut R, target: &[u16], case: Case) -> Result<bool, BadRecord> {
    if case.number == NOT_REFUSED {
        return is_stored(source, target);
    }
    Ok(is_salted(target, 0, case.salt))
}

// Whether a plan's size is the one expected: a yes means that words and number are.
fn is_sized(size: Result<usize, Refusal>, case: Case) -> bool
    ensures { result ≡ true → (numbered size ≡ case.size_number) × (size_value size ≡ case.size) }
{
    match size {
        Ok(words) => case.size_number == NOT_REFUSED && case.size == words,
        Err(refusal) => case.size_number == u16::from(refusal) && case.size == 0,
    }
}

// Whether what a build says and leaves is as its record says.
pub fn is_built<R: Read>(
    source: &mut R,
    plan: &mut [u16],
    target: &mut [u16],
    head: Head,
) -> Result<bool, BadRecord> {
    let case = read_case(source, head)?;
    let plan = plan.get_mut(..case.plan).ok_or(BadRecord)?;
    let target = target.get_mut(..case.target).ok_or(BadRecord)?;
    read_words(source, plan)?;
    salt_target(target, case.salt);
    let number = builds::build(plan, target);
    let left = is_left(source, target, case)?;
    Ok(number == case.number && is_sized(plans::size(plan), case) && left)
}
