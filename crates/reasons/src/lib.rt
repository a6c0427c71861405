// Why a line is refused, and which line it is.
#![tactic(auto)]

ghost use Rattle.std.specs.Prelude.{◌≤◌, length};
ghost use Rattle.grammar.specs.Texts.{part_of};
ghost use Rattle.tokens.specs.Shown.{part};
ghost use Rattle.tables.specs.Tables.{table, Chained, Headed};
ghost use Rattle.texts.specs.Reads.{Within};
ghost use Rattle.outside.specs.Reasons.{Fits, left};
ghost use Rattle.reasons.specs.UsedNames.{most_text, Held, Steps};

use grammar::{Kept, LINE_END, Line, Refusal, Text};
use kept::kept;
use outside::{Reason, names_reason, script_reason};
use phrases::start_of;
use tables::{MOST_NAMES, NO_ENTRY, look};
use texts::read_texts;
use tokens::{Token, next_token};

// The next token of a line: none, a name that is not given, or another, with the place after it. Three ways, so neither an Option
// nor a Result.
#[derive(Clone, Copy)]
enum Step {
    Ends,
    Missing(usize, usize),
    Past(usize),
}

// The number of the line that begins at a place of a text, counted from 1.
pub fn line_number(text: &[u8], from: usize) -> usize
    requires { (from ≤ length text.now) × (length text.now ≤ most_text) }
{
    1 + text[..from].iter().filter(|b| **b == LINE_END).count()
}

// The token of a line that stands next: whether it is a name that is not given.
fn missing_step<'a>(
    names: &'a [u8],
    script: &'a [u8],
    split: usize,
    filled: usize,
    froms: &[usize; MOST_NAMES],
    counts: &[usize; MOST_NAMES],
    values: &[u32; MOST_NAMES],
    nexts: &[u16; MOST_NAMES],
    heads: &[u16; MOST_NAMES],
    line: &[u8],
    at: usize,
) -> Step
    requires chained { Chained (table names.now script.now split froms.now counts.now values.now nexts.now) filled }
    requires headed { Headed (table names.now script.now split froms.now counts.now values.now nexts.now) filled heads.now }
    ensures { Steps line.now (left line.now at) result }
{
    match next_token(line, at) {
        Token::End => Step::Ends,
        Token::Number(_, to) | Token::Mark(_, to) | Token::Stray(to) => Step::Past(to),
        Token::Word(from, to) => {
            let word = &line[from..to];
            let Kept::Free = kept(word) else {
                return Step::Past(to);
            };
            let None = look(
                names, script, split, filled, froms, counts, values, nexts, heads, word,
            ) else {
                return Step::Past(to);
            };
            Step::Missing(from, to)
        }
    }
}

// The first name of a line from a place on that is not given: its first byte and the place after it.
fn missing_from<'a>(
    names: &'a [u8],
    script: &'a [u8],
    split: usize,
    filled: usize,
    froms: &[usize; MOST_NAMES],
    counts: &[usize; MOST_NAMES],
    values: &[u32; MOST_NAMES],
    nexts: &[u16; MOST_NAMES],
    heads: &[u16; MOST_NAMES],
    line: &[u8],
    at: usize,
) -> Option<(usize, usize)>
    requires chained { Chained (table names.now script.now split froms.now counts.now values.now nexts.now) filled }
    requires headed { Headed (table names.now script.now split froms.now counts.now values.now nexts.now) filled heads.now }
    ensures { Held line.now result }
{
    let mut k = at;
    loop {
        match missing_step(
            names, script, split, filled, froms, counts, values, nexts, heads, line, k,
        ) {
            Step::Ends => return None,
            Step::Missing(from, to) => return Some((from, to)),
            Step::Past(to) => k = to,
        }
    }
}

// The first name of a line from a place on that two texts do not give.
fn missing_word<'a>(
    names: &'a [u8],
    script: &'a [u8],
    line: &[u8],
    at: usize,
) -> Option<(usize, usize)>
    ensures { Held line.now result }
{
    let mut froms: [usize; MOST_NAMES] = [0; MOST_NAMES];
    let mut counts: [usize; MOST_NAMES] = [0; MOST_NAMES];
    let mut values: [u32; MOST_NAMES] = [0; MOST_NAMES];
    let mut nexts: [u16; MOST_NAMES] = [NO_ENTRY; MOST_NAMES];
    let mut heads: [u16; MOST_NAMES] = [NO_ENTRY; MOST_NAMES];
    let past = read_texts(
        names,
        script,
        &mut froms,
        &mut counts,
        &mut values,
        &mut nexts,
        &mut heads,
    );
    let split = past.split;
    let filled = past.filled;
    missing_from(
        names, script, split, filled, &froms, &counts, &values, &nexts, &heads, line, at,
    )
}

// The reason of a line that uses a name, from a place on, which two texts do not give.
fn use_reason<'a>(names: &'a [u8], script: &'a [u8], line: &[u8], at: usize) -> Reason
    ensures { Fits line.now result }
{
    match missing_word(names, script, line, at) {
        Some((from, to)) => Reason::NotGiven(from, to),
        None => Reason::Other,
    }
}

// Whether two texts give a word.
fn gives<'a>(names: &'a [u8], script: &'a [u8], word: &[u8]) -> bool {
    missing_word(names, script, word, 0).is_none()
}

// The reason of a line of the names that gives a name again or uses one that is not given above.
fn name_reason<'a>(above: &'a [u8], script: &'a [u8], line: &[u8]) -> Reason
    ensures { Fits line.now result }
{
    let Token::Word(from, to) = next_token(line, 0) else {
        return Reason::Other;
    };
    if gives(above, script, &line[from..to]) {
        return Reason::GivenTwice(from, to);
    }
    use_reason(above, script, line, to)
}

// The reason of a line of the script that gives a label again or uses a name that is not given.
fn label_reason<'a>(names: &'a [u8], script: &'a [u8], above: &'a [u8], line: &[u8]) -> Reason
    ensures { Fits line.now result }
{
    let start = start_of(line);
    let label = start.label;
    let Some((from, to)) = label else {
        return use_reason(names, script, line, 0);
    };
    if gives(names, above, &line[from..to]) {
        return Reason::GivenTwice(from, to);
    }
    use_reason(names, script, line, to)
}

// Why a line of the names is refused.
fn reason_in_names<'a>(
    names: &'a [u8],
    script: &'a [u8],
    r: Refusal,
    from: usize,
    to: usize,
) -> Reason
    requires { (from ≤ to) × (to ≤ length names.now) }
    ensures { Fits (part names.now from to) result }
{
    let line = &names[from..to];
    match r {
        Refusal::OutsideGrammar => names_reason(line),
        Refusal::NameFault => name_reason(&names[..from], &script[0..0], line),
        Refusal::OutOfRange => Reason::OutOfRange,
        Refusal::NoRoom => Reason::NoRoom,
    }
}

// Why a line of the script is refused.
fn reason_in_script<'a>(
    names: &'a [u8],
    script: &'a [u8],
    r: Refusal,
    from: usize,
    to: usize,
) -> Reason
    requires { (from ≤ to) × (to ≤ length script.now) }
    ensures { Fits (part script.now from to) result }
{
    let line = &script[from..to];
    match r {
        Refusal::OutsideGrammar => script_reason(line),
        Refusal::NameFault => label_reason(names, script, &script[..from], line),
        Refusal::OutOfRange => Reason::OutOfRange,
        Refusal::NoRoom => Reason::NoRoom,
    }
}

// Why a line is refused.
pub fn reason<'a>(names: &'a [u8], script: &'a [u8], r: Refusal, line: Line) -> Reason
    requires { Within names.now script.now line }
    ensures { Fits (part_of line names.now script.now) result }
{
    let text = line.text;
    let from = line.from;
    let to = line.from + line.count;
    match text {
        Text::Names => reason_in_names(names, script, r, from, to),
        Text::Script => reason_in_script(names, script, r, from, to),
    }
}
