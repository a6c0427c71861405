// The lines of the names and of the script, each by its tokens.
#![tactic(auto)]

ghost use Rattle.std.specs.Prelude.{◌≡◌, List, ℕ, ◌<◌, ◌≤◌};
ghost use Rattle.grammar.specs.Tokens.{tokens};
ghost use Rattle.grammar.specs.Lines.{size_of, register as register_of, words_by as words_of, one as one_of, two as two_of, with_registers as registers_of, order as order_by, given as given_by};
ghost use Rattle.grammar.specs.Lines.{names_line, sum_line};
ghost use Rattle.grammar.specs.Sums.{sum_of as sum_by};
ghost use Rattle.tokens.specs.Shown.{shown, Inside};
ghost use Rattle.tables.specs.Tables.{table, entries, Chained, Headed};
ghost use Rattle.phrases.specs.Phrases.{is_name, shown_names, NamesInside, Starts, shown_operand, OperandInside, order_end};

use grammar::{Given, Kept, NoValue, Operands};
use kept::kept;
use sums::sum_of;
use tables::MOST_NAMES;
use tokens::{EQUALS, LABEL, Token, ends, mark_of, next_token};

// What a line of the names comes to: nothing, or a name with its first byte and the place after it, and what its sum comes to.
#[derive(Clone, Copy)]
pub enum NamesLine {
    Blank,
    Gives(usize, usize, Result<u16, NoValue>),
}

// How a line of the script starts: its label, with its first byte and the place after it, and the first token of its body.
#[derive(Clone, Copy)]
pub struct Start {
    pub label: Option<(usize, usize)>,
    pub body: Token,
}

// An order's first word has its first register sixteenfold.
const SIXTEEN: u16 = 16;

// Whether a word is free to be a name.
fn is_free(word: &[u8]) -> bool
    ensures { result ≡ is_name word.now }
{
    matches!(kept(word), Kept::Free)
}

// A line of the names, if it is one of the grammar.
pub fn names_line<'a>(
    names: &'a [u8],
    script: &'a [u8],
    split: usize,
    filled: usize,
    froms: &[usize; MOST_NAMES],
    counts: &[usize; MOST_NAMES],
    values: &[u32; MOST_NAMES],
    nexts: &[u16; MOST_NAMES],
    heads: &[u16; MOST_NAMES],
    line: &[u8],
) -> Option<NamesLine>
    requires chained { Chained (table names.now script.now split froms.now counts.now values.now nexts.now) filled }
    requires headed { Headed (table names.now script.now split froms.now counts.now values.now nexts.now) filled heads.now }
    ensures line_value { names_line (entries (table names.now script.now split froms.now counts.now values.now nexts.now) filled) (tokens line.now) ≡ shown_names line.now result }
    ensures names_inside { NamesInside line.now result }
{
    let first = next_token(line, 0);
    if ends(first) {
        return Some(NamesLine::Blank);
    }
    let Token::Word(from, to) = first else {
        return None;
    };
    if !is_free(&line[from..to]) {
        return None;
    }
    let after = mark_of(next_token(line, to), EQUALS)?;
    let v = sum_of(
        names,
        script,
        split,
        filled,
        froms,
        counts,
        values,
        nexts,
        heads,
        line,
        next_token(line, after),
    )?;
    Some(NamesLine::Gives(from, to, v))
}

// How a line of the script starts.
pub fn start_of(line: &[u8]) -> Start
    ensures { Starts line.now result.label result.body }
{
    let first = next_token(line, 0);
    let Token::Word(from, to) = first else {
        return Start {
            label: None,
            body: first,
        };
    };
    let Some(after) = mark_of(next_token(line, to), LABEL) else {
        return Start {
            label: None,
            body: first,
        };
    };
    if is_free(&line[from..to]) {
        return Start {
            label: Some((from, to)),
            body: next_token(line, after),
        };
    }
    Start {
        label: None,
        body: first,
    }
}

// How many words an order has, by its operands.
fn words_by(operands: Operands) -> usize
    ensures { result ≡ words_of operands }
{
    match operands {
        Operands::Nothing | Operands::Registers => 1,
        Operands::Sum | Operands::RegisterSum => 2,
    }
}

// How many words the body of a line gives, by its first token.
#[tactic(auto, unfolding(grammar::specs::Lines::size_of))]
pub fn size(line: &[u8], body: Token) -> usize
    requires { Inside line.now body }
    ensures value { result ≡ size_of (shown line.now body) }
    ensures upper_bound { result ≤ 2 }
{
    match body {
        Token::End => 0,
        Token::Word(from, to) => match kept(&line[from..to]) {
            Kept::Order(operands, _) => words_by(operands),
            Kept::Free | Kept::Register(_) | Kept::Later => 1,
        },
        Token::Number(_, _) | Token::Mark(_, _) | Token::Stray(_) => 1,
    }
}

// A register as an operand, and the token after it.
fn register(line: &[u8], t: Token) -> Option<(u16, Token)>
    requires { Inside line.now t }
    ensures t_value { register_of (shown line.now t) ≡ shown_operand line.now result }
    ensures operand_inside { OperandInside line.now result }
{
    let Token::Word(from, to) = t else {
        return None;
    };
    let Kept::Register(a) = kept(&line[from..to]) else {
        return None;
    };
    Some((a, next_token(line, to)))
}

// One word, where the line ends.
fn one(word: u16, t: Token) -> Option<Given>
    ensures { (l : List ℕ) → result ≡ one_of word (shown l t) }
{
    ends(t).then_some(Given::One(Ok(word)))
}

// Two registers.
fn with_registers(word: u16, line: &[u8], t: Token) -> Option<Given>
    requires inside { Inside line.now t }
    requires word_lt_order_end { word < order_end }
    ensures { result ≡ registers_of word (register_of (shown line.now t)) }
{
    let (a, second) = register(line, t)?;
    let (b, last) = register(line, second)?;
    one(word + SIXTEEN * a + b, last)
}

// A first word, and a sum for the second.
fn two<'a>(
    names: &'a [u8],
    script: &'a [u8],
    split: usize,
    filled: usize,
    froms: &[usize; MOST_NAMES],
    counts: &[usize; MOST_NAMES],
    values: &[u32; MOST_NAMES],
    nexts: &[u16; MOST_NAMES],
    heads: &[u16; MOST_NAMES],
    word: u16,
    line: &[u8],
    t: Token,
) -> Option<Given>
    requires chained { Chained (table names.now script.now split froms.now counts.now values.now nexts.now) filled }
    requires headed { Headed (table names.now script.now split froms.now counts.now values.now nexts.now) filled heads.now }
    requires inside { Inside line.now t }
    ensures { result ≡ two_of word (sum_by (entries (table names.now script.now split froms.now counts.now values.now nexts.now) filled) (shown line.now t)) }
{
    let v = sum_of(
        names, script, split, filled, froms, counts, values, nexts, heads, line, t,
    )?;
    Some(Given::Two(word, v))
}

// An order with its operands.
fn order<'a>(
    names: &'a [u8],
    script: &'a [u8],
    split: usize,
    filled: usize,
    froms: &[usize; MOST_NAMES],
    counts: &[usize; MOST_NAMES],
    values: &[u32; MOST_NAMES],
    nexts: &[u16; MOST_NAMES],
    heads: &[u16; MOST_NAMES],
    operands: Operands,
    word: u16,
    line: &[u8],
    t: Token,
) -> Option<Given>
    requires chained { Chained (table names.now script.now split froms.now counts.now values.now nexts.now) filled }
    requires headed { Headed (table names.now script.now split froms.now counts.now values.now nexts.now) filled heads.now }
    requires inside { Inside line.now t }
    requires word_lt_order_end { word < order_end }
    ensures { result ≡ order_by (entries (table names.now script.now split froms.now counts.now values.now nexts.now) filled) operands word (shown line.now t) }
{
    match operands {
        Operands::Nothing => one(word, t),
        Operands::Sum => two(
            names, script, split, filled, froms, counts, values, nexts, heads, word, line, t,
        ),
        Operands::RegisterSum => {
            let (a, second) = register(line, t)?;
            two(
                names,
                script,
                split,
                filled,
                froms,
                counts,
                values,
                nexts,
                heads,
                word + SIXTEEN * a,
                line,
                second,
            )
        }
        Operands::Registers => with_registers(word, line, t),
    }
}

// A sum as a line of its own.
fn alone<'a>(
    names: &'a [u8],
    script: &'a [u8],
    split: usize,
    filled: usize,
    froms: &[usize; MOST_NAMES],
    counts: &[usize; MOST_NAMES],
    values: &[u32; MOST_NAMES],
    nexts: &[u16; MOST_NAMES],
    heads: &[u16; MOST_NAMES],
    line: &[u8],
    t: Token,
) -> Option<Given>
    requires chained { Chained (table names.now script.now split froms.now counts.now values.now nexts.now) filled }
    requires headed { Headed (table names.now script.now split froms.now counts.now values.now nexts.now) filled heads.now }
    requires inside { Inside line.now t }
    ensures { result ≡ sum_line (sum_by (entries (table names.now script.now split froms.now counts.now values.now nexts.now) filled) (shown line.now t)) }
{
    let v = sum_of(
        names, script, split, filled, froms, counts, values, nexts, heads, line, t,
    )?;
    Some(Given::One(v))
}

// What the body of a script's line gives, from its first token.
#[tactic(auto, unfolding(grammar::specs::Lines::given))]
pub fn given<'a>(
    names: &'a [u8],
    script: &'a [u8],
    split: usize,
    filled: usize,
    froms: &[usize; MOST_NAMES],
    counts: &[usize; MOST_NAMES],
    values: &[u32; MOST_NAMES],
    nexts: &[u16; MOST_NAMES],
    heads: &[u16; MOST_NAMES],
    line: &[u8],
    body: Token,
) -> Option<Given>
    requires chained { Chained (table names.now script.now split froms.now counts.now values.now nexts.now) filled }
    requires headed { Headed (table names.now script.now split froms.now counts.now values.now nexts.now) filled heads.now }
    requires inside { Inside line.now body }
    ensures { result ≡ given_by (entries (table names.now script.now split froms.now counts.now values.now nexts.now) filled) (shown line.now body) }
{
    match body {
        Token::End => Some(Given::Nothing),
        Token::Stray(_) => None,
        Token::Word(from, to) => match kept(&line[from..to]) {
            Kept::Free => alone(
                names, script, split, filled, froms, counts, values, nexts, heads, line, body,
            ),
            Kept::Order(o, word) => order(
                names,
                script,
                split,
                filled,
                froms,
                counts,
                values,
                nexts,
                heads,
                o,
                word,
                line,
                next_token(line, to),
            ),
            Kept::Register(_) | Kept::Later => None,
        },
        Token::Number(_, _) | Token::Mark(_, _) => alone(
            names, script, split, filled, froms, counts, values, nexts, heads, line, body,
        ),
    }
}
