// The reader of a text: it holds the text and its place in it.
#![tactic(auto)]

ghost use Rattle.std.specs.Prelude.{◌≡◌, ◌==◌, length, drop, position};
ghost use Rattle.grammar.specs.Tokens.{first_line};

use grammar::LINE_END;

// A text, and the place in it that is read next.
#[derive(Clone, Copy)]
pub struct Reader<'a> {
    pub text: &'a [u8],
    pub at: usize,
}

// What is left of a text from a place on; nothing past its end.
pub fn rest(text: &[u8], at: usize) -> &[u8]
    ensures { result.now ≡ drop at text.now }
{
    &text[at.min(text.len())..]
}

// The place of the first byte that ends a line.
fn line_end(text: &[u8]) -> Option<usize>
    ensures { result ≡ position (λ b. b == 10) text.now }
{
    text.iter().position(|b| *b == LINE_END)
}

// How many bytes the first line of a text has.
pub fn first_count(text: &[u8]) -> usize
    ensures { result ≡ length (first_line text.now) }
{
    line_end(text).unwrap_or(text.len())
}

// The reader of a text, at a place.
pub fn new<'a>(text: &'a [u8], at: usize) -> Reader<'a>
    ensures { (result.text ≡ text.entry) × (result.at ≡ at) }
{
    Reader { text, at }
}

// What is left to read: exactly that part of the text.
pub fn left<'a>(r: Reader<'a>) -> &'a [u8]
    ensures { result.now ≡ drop r.entry.at r.entry.text.now }
{
    rest(r.text, r.at)
}

// How many bytes the line has that begins at a place; who calls it needs no reader.
pub fn line_count(text: &[u8], at: usize) -> usize
    ensures { result ≡ length (first_line (drop at text.now)) }
{
    first_count(left(new(text, at)))
}
