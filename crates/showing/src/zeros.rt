// The lines `0` that end a text.
ghost use Rattle.std.specs.Prelude.{◌≡◌, ◌+◌, ◌≤◌, length};
ghost use Rattle.showing.specs.Zeros.{ZeroLines};
ghost use Rattle.showing.specs.Zeros.{starts_line as line_starts, is_zero_line as zero_line_stands};

use grammar::{FIRST_DIGIT, LINE_END};

// The bytes of a line `0`, its end among them.
pub const ZERO_LINE: usize = 2;

// Whether a line starts at a place.
fn starts_line(text: &[u8], at: usize) -> bool
    requires { at ≤ length text.now }
    ensures { result ≡ line_starts text.now at }
{
    at == 0 || text[at - 1] == LINE_END
}

// Whether a line `0` stands at a place.
fn is_zero_line(text: &[u8], at: usize) -> bool
    requires { at + 2 ≤ length text.now }
    ensures { result ≡ zero_line_stands text.now at }
{
    text[at] == FIRST_DIGIT && text[at + 1] == LINE_END && starts_line(text, at)
}

// How many lines `0` end a text.
pub fn zero_lines(text: &[u8]) -> usize
    ensures { ZeroLines text.now result }
{
    let most = text.len() / ZERO_LINE;
    for lines in 0..most {
        if !is_zero_line(text, text.len() - ZERO_LINE * (lines + 1)) {
            return lines;
        }
    }
    most
}
