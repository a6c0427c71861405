// Replays a record of a task's share by the counts that stand.
use crate::report_cases::Counts;
use kernel_c::reports::kernel_share;
use std::io::Read;
use vectors::records::{BadRecord, Head, read_array};

// The answers that a share may have: that there is none, and that there is one.
pub const SHARE_NUMBERS: [u16; 2] = [0, 1];

// What stands in the place of a share before the call.
const UNWRITTEN: f64 = -1.5;

// The words of a share's bits.
const BITS_WORDS: usize = 4;

// Bits from their words, low ones first.
fn bits_of(words: [u16; BITS_WORDS]) -> u64 {
    let [first, second, third, fourth] = words;
    u64::from(first) | u64::from(second) << 16 | u64::from(third) << 32 | u64::from(fourth) << 48
}

// Whether a share has these bits; what is no number has none.
fn has_bits(share: f64, bits: u64) -> bool {
    !share.is_nan() && share.to_bits() == bits
}

// Whether a task's share is as its record says.
pub fn is_share<R: Read>(source: &mut R, counts: &Counts, head: Head) -> Result<bool, BadRecord> {
    let bits = bits_of(read_array::<R, BITS_WORDS>(source)?);
    if !SHARE_NUMBERS.contains(&head.number) {
        return Err(BadRecord);
    }
    let task = u16::try_from(head.count).map_err(|_| BadRecord)?;
    let mut share = UNWRITTEN;
    let told = kernel_share(&counts.room[..counts.held], task, &mut share);
    Ok(told == head.number && has_bits(share, bits))
}
