// What is wrong with a line, and the fault of the lines so far.
#![tactic(auto)]

ghost use Rattle.std.specs.Prelude.{◌≡◌, min, length};
ghost use Rattle.grammar.specs.Sums.{end_of_range};
ghost use Rattle.grammar.specs.Lines.{line_words};
ghost use Rattle.grammar.specs.Texts.{kept_value, judged_as};
ghost use Rattle.grammar.specs.Texts.{again_flaw as flaw_of_again, lower as lower_of, worked_flaw as flaw_of_worked, given_flaw as flaw_of_given, noted as noted_by};

use grammar::{Fault, Given, Line, NoValue, RANGE_END, Refusal};

// Where the values of labels end, as a place.
const RANGE_END_PLACE: usize = RANGE_END as usize;

// Of two flaws, the one with the lower number.
pub fn lower(a: Option<Refusal>, b: Option<Refusal>) -> Option<Refusal>
    ensures { result ≡ lower_of a b }
{
    match (a, b) {
        (Some(r), Some(q)) if u16::from(q) < u16::from(r) => b,
        _ => a.or(b),
    }
}

// The fault of the lines so far with one line more.
pub fn noted(fault: Option<Fault>, flaw: Option<Refusal>, line: Line) -> Option<Fault>
    ensures { result ≡ noted_by fault flaw line }
{
    let Some(r) = flaw else {
        return fault;
    };
    match fault {
        Some((q, _)) if u16::from(q) <= u16::from(r) => fault,
        _ => Some((r, line)),
    }
}

// What is wrong with a name or label by what was found of it before.
pub fn again_flaw(f: Option<u32>) -> Option<Refusal>
    ensures { result ≡ flaw_of_again f }
{
    f.map(|_| Refusal::NameFault)
}

// What is wrong with a value.
pub fn worked_flaw(v: Result<u16, NoValue>) -> Option<Refusal>
    ensures { result ≡ flaw_of_worked v }
{
    match v {
        Ok(_) => None,
        Err(NoValue::Missing) => Some(Refusal::NameFault),
        Err(NoValue::Beyond) => Some(Refusal::OutOfRange),
    }
}

// What is wrong with what a line gives, or with a line outside the grammar.
pub fn given_flaw(g: Option<Given>) -> Option<Refusal>
    ensures { result ≡ flaw_of_given g }
{
    match g {
        None => Some(Refusal::OutsideGrammar),
        Some(Given::Nothing) => None,
        Some(Given::One(v) | Given::Two(_, v)) => worked_flaw(v),
    }
}

// The value that is kept of a name.
pub fn value_kept(v: Result<u16, NoValue>) -> u32
    ensures { result ≡ kept_value v }
{
    v.map_or(RANGE_END, |n| n as u32)
}

// The value that is kept of a label at a place.
pub fn label_value(place: usize) -> u32
    ensures { result ≡ min place end_of_range }
{
    place.min(RANGE_END_PLACE) as u32
}

// How many words a line gives.
pub fn count_of(g: Option<Given>) -> usize
    ensures { result ≡ length (line_words g) }
{
    match g {
        Some(Given::One(Ok(_))) => 1,
        Some(Given::Two(_, Ok(_))) => 2,
        _ => 0,
    }
}

// What a fault and a count of words come to.
pub fn judge_by(fault: Option<Fault>, words: usize) -> Result<usize, Fault>
    ensures { result ≡ judged_as fault words }
{
    match fault {
        None => Ok(words),
        Some(found) => Err(found),
    }
}
