// What is asked of a plan, as texts.
#![tactic(auto)]

ghost use Rattle.std.specs.Prelude.{IfSome};
ghost use Rattle.joining.specs.Texts.{Begins};

use tokens::{LABEL, Token, next_token};
use values::number;

// The number that a text begins with, and what is left of the text after it.
fn leading(text: &[u8]) -> Option<(u16, &[u8])>
    ensures { IfSome result (λ r. Begins text.now r.1.now) }
{
    let Token::Number(0, to) = next_token(text, 0) else {
        return None;
    };
    let n = number(&text[..to]).ok()?;
    Some((n, &text[to..]))
}

// The number that a text is, 0..65535.
pub fn read_word(text: &[u8]) -> Option<u16> {
    match leading(text)? {
        (n, []) => Some(n),
        _ => None,
    }
}

// The task that a text asks for: the length of its segment, a colon, and its program's name, which is the rest of the text.
pub fn read_task(text: &[u8]) -> Option<(u16, &[u8])>
    ensures { IfSome result (λ r. Begins text.now r.1.now) }
{
    match leading(text)? {
        (length, [LABEL, name @ ..]) => Some((length, name)),
        _ => None,
    }
}
