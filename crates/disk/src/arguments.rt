// The arguments that a program was started with.
ghost use Rattle.std.specs.Prelude.{◌≡◌, ◌≤◌, length, take};
ghost use Rattle.disk.specs.Bytes.{Loads};

use crate::fail;
use std::env::FillError;
use std::io::Error;
use std::rt::Env;

// As many bytes as hold any path and one more.
pub const ARG_BYTES: usize = 4096;

// The system's number of the error of a name that is too long.
const TOO_LONG: i32 = 36;

// How many arguments there are, the program's own name among them.
pub fn arg_count(rt: &HostRuntime) -> usize {
    let mut start = [0u8; 1];
    for k in 0..usize::MAX {
        if let Err(FillError::NotPresent) = rt.arg(k, &mut start) {
            return k;
        }
    }
    usize::MAX
}

// Puts an argument at the start of a buffer; one that is missing or longer than the buffer could not be had. Of one that is
// longer the first bytes are put.
pub fn arg(rt: &HostRuntime, k: usize, buffer: &mut [u8]) -> Option<usize>
    ensures { Loads buffer.new result }
{
    rt.arg(k, buffer).ok()
}

// Says that an argument is longer than any path, of which the first bytes are given.
pub fn say_long_arg(rt: &HostRuntime, first: &[u8]) {
    fail(rt, first, Error::from_raw_os_error(TOO_LONG));
}

// Puts an argument at the start of a buffer, and answers how long it is; one that is missing or longer than the buffer counts as
// empty.
pub fn short_arg(rt: &HostRuntime, k: usize, buffer: &mut [u8]) -> usize
    ensures { (result ≤ length buffer.new) × (result ≡ length (take result buffer.new)) }
{
    arg(rt, k, buffer).unwrap_or(0)
}
