// Sums, products and terms: three readers that call one another.
#![tactic(auto)]

ghost use Rattle.std.specs.Prelude.{◌≡◌, ℕ, ◌+◌, ◌*◌, ◌≤◌, length, Ok};
ghost use Rattle.grammar.specs.Sums.{value_of, sum_of, sum as sum_by, product as product_by, term as term_by};
ghost use Rattle.grammar.specs.declared.Sign.{Sign};
ghost use Rattle.tokens.specs.Shown.{shown, Inside};
ghost use Rattle.tables.specs.Tables.{table, entries, Chained, Headed};
ghost use Rattle.sums.specs.Told.{told, total, ToldInside};

use grammar::{DEEPEST, Kept, NoValue, Sign};
use kept::kept;
use tables::{MOST_NAMES, look};
use tokens::{CLOSE, MINUS, OPEN, PLUS, TIMES, Token, ends, mark_of, next_token};
use values::{in_range, joined, number, times};

// The value of a name or label.
fn value<'a>(
    names: &'a [u8],
    script: &'a [u8],
    split: usize,
    filled: usize,
    froms: &[usize; MOST_NAMES],
    counts: &[usize; MOST_NAMES],
    values: &[u32; MOST_NAMES],
    nexts: &[u16; MOST_NAMES],
    heads: &[u16; MOST_NAMES],
    word: &[u8],
) -> Result<u16, NoValue>
    requires chained { Chained (table names.now script.now split froms.now counts.now values.now nexts.now) filled }
    requires headed { Headed (table names.now script.now split froms.now counts.now values.now nexts.now) filled heads.now }
    ensures { result ≡ value_of (entries (table names.now script.now split froms.now counts.now values.now nexts.now) filled) word.now }
{
    let found = look(
        names, script, split, filled, froms, counts, values, nexts, heads, word,
    );
    in_range(found.ok_or(NoValue::Missing)?)
}

// A sum, from the token that stands next: product after product, with no call deeper than its brackets.
#[cycle(product_sum_term)]
fn sum<'a>(
    names: &'a [u8],
    script: &'a [u8],
    split: usize,
    filled: usize,
    froms: &[usize; MOST_NAMES],
    counts: &[usize; MOST_NAMES],
    values: &[u32; MOST_NAMES],
    nexts: &[u16; MOST_NAMES],
    heads: &[u16; MOST_NAMES],
    line: &[u8],
    next: Token,
    depth: usize,
) -> Option<(Result<u16, NoValue>, Token)>
    requires chained { Chained (table names.now script.now split froms.now counts.now values.now nexts.now) filled }
    requires headed { Headed (table names.now script.now split froms.now counts.now values.now nexts.now) filled heads.now }
    requires inside { Inside line.now next }
    ensures by_index { (n : ℕ) → 3 * length (shown line.now next) + 3 ≤ n → sum_by n (entries (table names.now script.now split froms.now counts.now values.now nexts.now) filled) depth Sign.Plus (Ok 0) (shown line.now next) ≡ told line.now result }
    ensures told_inside { ToldInside line.now next result }
{
    let mut first = next;
    let mut sign = Sign::Plus;
    let mut value = Ok(0);
    loop {
        let (p, then) = product(
            names, script, split, filled, froms, counts, values, nexts, heads, line, first, depth,
        )?;
        value = joined(sign, value, p);
        if let Some(to) = mark_of(then, PLUS) {
            sign = Sign::Plus;
            first = next_token(line, to);
            continue;
        }
        let Some(to) = mark_of(then, MINUS) else {
            return Some((value, then));
        };
        sign = Sign::Minus;
        first = next_token(line, to);
    }
}

// A product, from the token that stands next: term after term.
#[cycle(product_sum_term)]
fn product<'a>(
    names: &'a [u8],
    script: &'a [u8],
    split: usize,
    filled: usize,
    froms: &[usize; MOST_NAMES],
    counts: &[usize; MOST_NAMES],
    values: &[u32; MOST_NAMES],
    nexts: &[u16; MOST_NAMES],
    heads: &[u16; MOST_NAMES],
    line: &[u8],
    next: Token,
    depth: usize,
) -> Option<(Result<u16, NoValue>, Token)>
    requires chained { Chained (table names.now script.now split froms.now counts.now values.now nexts.now) filled }
    requires headed { Headed (table names.now script.now split froms.now counts.now values.now nexts.now) filled heads.now }
    requires inside { Inside line.now next }
    ensures by_index { (n : ℕ) → 3 * length (shown line.now next) + 2 ≤ n → product_by n (entries (table names.now script.now split froms.now counts.now values.now nexts.now) filled) depth (Ok 1) (shown line.now next) ≡ told line.now result }
    ensures told_inside { ToldInside line.now next result }
{
    let mut first = next;
    let mut value = Ok(1);
    loop {
        let (t, then) = term(
            names, script, split, filled, froms, counts, values, nexts, heads, line, first, depth,
        )?;
        value = times(value, t);
        let Some(to) = mark_of(then, TIMES) else {
            return Some((value, then));
        };
        first = next_token(line, to);
    }
}

// A term: a number, a name, or a sum in brackets.
#[cycle(product_sum_term)]
fn term<'a>(
    names: &'a [u8],
    script: &'a [u8],
    split: usize,
    filled: usize,
    froms: &[usize; MOST_NAMES],
    counts: &[usize; MOST_NAMES],
    values: &[u32; MOST_NAMES],
    nexts: &[u16; MOST_NAMES],
    heads: &[u16; MOST_NAMES],
    line: &[u8],
    next: Token,
    depth: usize,
) -> Option<(Result<u16, NoValue>, Token)>
    requires chained { Chained (table names.now script.now split froms.now counts.now values.now nexts.now) filled }
    requires headed { Headed (table names.now script.now split froms.now counts.now values.now nexts.now) filled heads.now }
    requires inside { Inside line.now next }
    ensures by_index { (n : ℕ) → 3 * length (shown line.now next) + 1 ≤ n → term_by n (entries (table names.now script.now split froms.now counts.now values.now nexts.now) filled) depth (shown line.now next) ≡ told line.now result }
    ensures told_inside { ToldInside line.now next result }
{
    match next {
        Token::End | Token::Stray(_) => None,
        Token::Number(from, to) => Some((number(&line[from..to]), next_token(line, to))),
        Token::Word(from, to) => {
            let word = &line[from..to];
            let Kept::Free = kept(word) else {
                return None;
            };
            Some((
                value(
                    names, script, split, filled, froms, counts, values, nexts, heads, word,
                ),
                next_token(line, to),
            ))
        }
        Token::Mark(b, to) => {
            if b != OPEN || depth == 0 {
                return None;
            }
            let (v, then) = sum(
                names,
                script,
                split,
                filled,
                froms,
                counts,
                values,
                nexts,
                heads,
                line,
                next_token(line, to),
                depth - 1,
            )?;
            let after = mark_of(then, CLOSE)?;
            Some((v, next_token(line, after)))
        }
    }
}

// A sum to the end of the line, from the token that stands next.
pub fn sum_of<'a>(
    names: &'a [u8],
    script: &'a [u8],
    split: usize,
    filled: usize,
    froms: &[usize; MOST_NAMES],
    counts: &[usize; MOST_NAMES],
    values: &[u32; MOST_NAMES],
    nexts: &[u16; MOST_NAMES],
    heads: &[u16; MOST_NAMES],
    line: &[u8],
    next: Token,
) -> Option<Result<u16, NoValue>>
    requires chained { Chained (table names.now script.now split froms.now counts.now values.now nexts.now) filled }
    requires headed { Headed (table names.now script.now split froms.now counts.now values.now nexts.now) filled heads.now }
    requires inside { Inside line.now next }
    ensures { sum_of (entries (table names.now script.now split froms.now counts.now values.now nexts.now) filled) (shown line.now next) ≡ total result }
{
    let (v, then) = sum(
        names, script, split, filled, froms, counts, values, nexts, heads, line, next, DEEPEST,
    )?;
    ends(then).then_some(v)
}
