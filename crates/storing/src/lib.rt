// The pass over the script that stores its words.
#![tactic(auto)]

ghost use Rattle.std.specs.Prelude.{◌≡◌, ◌+◌, ◌≤◌, length};
ghost use Rattle.grammar.specs.Tokens.{tokens, lines};
ghost use Rattle.grammar.specs.Lines.{body_of, given as given_by, line_words};
ghost use Rattle.grammar.specs.Texts.{script_words};
ghost use Rattle.tokens.specs.Shown.{part};
ghost use Rattle.tables.specs.Tables.{table, entries, Chained, Headed};
ghost use Rattle.writes.specs.Written.{written};

use grammar::Given;
use phrases::{given, start_of};
use reader::line_count;
use tables::MOST_NAMES;
use writes::put_word;

// Stores the words that a line gives, and answers where the next go.
#[tactic(auto, unfolding(writes::specs::Written::written))]
fn store_given(g: Option<Given>, k: usize, target: &mut [u16]) -> usize
    requires { k + length (line_words g) ≤ length target.old }
    ensures value { result ≡ k + length (line_words g) }
    ensures target_after { target.new ≡ written target.old k (line_words g) }
{
    match g {
        Some(Given::One(Ok(n))) => put_word(target, k, n),
        Some(Given::Two(first, Ok(n))) => {
            let second = put_word(target, k, first);
            put_word(target, second, n)
        }
        _ => k,
    }
}

// Stores the words of a line.
fn store_line<'a>(
    names: &'a [u8],
    script: &'a [u8],
    split: usize,
    filled: usize,
    froms: &[usize; MOST_NAMES],
    counts: &[usize; MOST_NAMES],
    values: &[u32; MOST_NAMES],
    nexts: &[u16; MOST_NAMES],
    heads: &[u16; MOST_NAMES],
    at: usize,
    end: usize,
    k: usize,
    target: &mut [u16],
) -> usize
    requires chained { Chained (table names.now script.now split froms.now counts.now values.now nexts.now) filled }
    requires headed { Headed (table names.now script.now split froms.now counts.now values.now nexts.now) filled heads.now }
    requires at_le_end { (at ≤ end) × (end ≤ length script.now) }
    requires end_in_bounds { k + length (line_words (given_by (entries (table names.now script.now split froms.now counts.now values.now nexts.now) filled) (body_of (tokens (part script.now at end))))) ≤ length target.old }
    ensures value { result ≡ k + length (line_words (given_by (entries (table names.now script.now split froms.now counts.now values.now nexts.now) filled) (body_of (tokens (part script.now at end))))) }
    ensures target_after { target.new ≡ written target.old k (line_words (given_by (entries (table names.now script.now split froms.now counts.now values.now nexts.now) filled) (body_of (tokens (part script.now at end))))) }
{
    let line = &script[at..end];
    let body = start_of(line).body;
    store_given(
        given(
            names, script, split, filled, froms, counts, values, nexts, heads, line, body,
        ),
        k,
        target,
    )
}

// Stores the words of the script.
pub fn store_words<'a>(
    names: &'a [u8],
    script: &'a [u8],
    split: usize,
    filled: usize,
    froms: &[usize; MOST_NAMES],
    counts: &[usize; MOST_NAMES],
    values: &[u32; MOST_NAMES],
    nexts: &[u16; MOST_NAMES],
    heads: &[u16; MOST_NAMES],
    target: &mut [u16],
)
    requires chained { Chained (table names.now script.now split froms.now counts.now values.now nexts.now) filled }
    requires headed { Headed (table names.now script.now split froms.now counts.now values.now nexts.now) filled heads.now }
    requires script_in_bounds { length (script_words (entries (table names.now script.now split froms.now counts.now values.now nexts.now) filled) (lines script.now)) ≤ length target.old }
    ensures { target.new ≡ written target.old 0 (script_words (entries (table names.now script.now split froms.now counts.now values.now nexts.now) filled) (lines script.now)) }
{
    let mut k: usize = 0;
    let mut at: usize = 0;
    // A line ends where its byte 10 stands, so the place of the next is computed: no range gives these places.
    while at < script.len() {
        let end = at + line_count(script, at);
        k = store_line(
            names, script, split, filled, froms, counts, values, nexts, heads, at, end, k, target,
        );
        at = end + 1;
    }
}
