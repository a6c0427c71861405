// Giving a name or label: what is wrong with it, and its entry.
#![tactic(auto)]

ghost use Rattle.std.specs.Prelude.{◌≡◌, ◌+◌, ◌<◌, ◌≤◌, length};
ghost use Rattle.grammar.specs.Texts.{give_flaw};
ghost use Rattle.tables.specs.Tables.{table, entries, Chained, Headed, most, text_at};
ghost use Rattle.giving.specs.Passes.{GiveMade, Known};

use flaws::again_flaw;
use grammar::Refusal;
use tables::{MOST_NAMES, insert, look, look_before};

// What is wrong with a name that is given after all entries.
#[tactic(auto, using(crate::proofs::Laws::full_flaw, crate::proofs::Laws::found_flaw))]
pub fn name_flaw<'a>(
    names: &'a [u8],
    script: &'a [u8],
    split: usize,
    filled: usize,
    froms: &[usize; MOST_NAMES],
    counts: &[usize; MOST_NAMES],
    values: &[u32; MOST_NAMES],
    nexts: &[u16; MOST_NAMES],
    heads: &[u16; MOST_NAMES],
    word: &[u8],
) -> Option<Refusal>
    requires chained { Chained (table names.now script.now split froms.now counts.now values.now nexts.now) filled }
    requires headed { Headed (table names.now script.now split froms.now counts.now values.now nexts.now) filled heads.now }
    ensures { result ≡ give_flaw (entries (table names.now script.now split froms.now counts.now values.now nexts.now) filled) word.now }
{
    if MOST_NAMES <= filled {
        return Some(Refusal::OutsideGrammar);
    }
    again_flaw(look(
        names, script, split, filled, froms, counts, values, nexts, heads, word,
    ))
}

// What is wrong with a label that is given after so many entries: it has the next one, unless the table is full.
#[tactic(auto, using(crate::proofs::Laws::full_flaw, crate::proofs::Laws::found_flaw))]
pub fn label_flaw<'a>(
    names: &'a [u8],
    script: &'a [u8],
    split: usize,
    filled: usize,
    froms: &[usize; MOST_NAMES],
    counts: &[usize; MOST_NAMES],
    values: &[u32; MOST_NAMES],
    nexts: &[u16; MOST_NAMES],
    above: usize,
    word: &[u8],
) -> Option<Refusal>
    requires chained { Chained (table names.now script.now split froms.now counts.now values.now nexts.now) filled }
    requires known { Known (table names.now script.now split froms.now counts.now values.now nexts.now) filled above word.now }
    ensures { result ≡ give_flaw (entries (table names.now script.now split froms.now counts.now values.now nexts.now) above) word.now }
{
    if MOST_NAMES <= above {
        return Some(Refusal::OutsideGrammar);
    }
    again_flaw(look_before(
        names, script, split, filled, froms, counts, values, nexts, above, word,
    ))
}

// Gives a name or label: an entry more, unless the table is full.
pub fn give<'a>(
    names: &'a [u8],
    script: &'a [u8],
    split: usize,
    filled: usize,
    froms: &mut [usize; MOST_NAMES],
    counts: &mut [usize; MOST_NAMES],
    values: &mut [u32; MOST_NAMES],
    nexts: &mut [u16; MOST_NAMES],
    heads: &mut [u16; MOST_NAMES],
    from: usize,
    count: usize,
    value: u32,
) -> usize
    requires chained { Chained (table names.now script.now split froms.old counts.old values.old nexts.old) filled }
    requires headed { Headed (table names.now script.now split froms.old counts.old values.old nexts.old) filled heads.old }
    requires count_in_bounds { filled < most → from + count ≤ length (text_at names.now script.now split filled) }
    ensures { GiveMade (table names.now script.now split froms.old counts.old values.old nexts.old) (table names.now script.now split froms.new counts.new values.new nexts.new) filled heads.new from count value result }
{
    if filled < MOST_NAMES {
        insert(
            names, script, split, filled, froms, counts, values, nexts, heads, from, count, value,
        );
        return filled + 1;
    }
    filled
}
