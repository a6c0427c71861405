// The public calls on texts: translating a script with a list of names, and the line that is refused.
#![tactic(auto)]

ghost use Rattle.std.specs.Prelude.{◌≡◌};
ghost use Rattle.grammar.specs.Texts.{judged};
ghost use Rattle.grammar.specs.Promises.{Translates, IsLine, NamesLine};
ghost use Rattle.tables.specs.Tables.{table, Chained, Headed, most};
ghost use Rattle.texts.specs.Reads.{TextsRead, Within};

use grammar::{Fault, Line, Refusal, Text};
use judging::judge_script;
use naming::{read_labels, read_names};
use storing::store_words;
use tables::{MOST_NAMES, NO_ENTRY};

// Both texts as they were read: how many entries the names have, how many there are, and the fault of the names.
#[derive(Clone, Copy)]
pub struct TextsPast {
    pub split: usize,
    pub filled: usize,
    pub fault: Option<Fault>,
}

// Reads both texts into an empty table.
pub fn read_texts<'a>(
    names: &'a [u8],
    script: &'a [u8],
    froms: &mut [usize; MOST_NAMES],
    counts: &mut [usize; MOST_NAMES],
    values: &mut [u32; MOST_NAMES],
    nexts: &mut [u16; MOST_NAMES],
    heads: &mut [u16; MOST_NAMES],
) -> TextsPast
    requires chained { Chained (table names.now script.now most froms.old counts.old values.old nexts.old) 0 }
    requires headed { Headed (table names.now script.now most froms.old counts.old values.old nexts.old) 0 heads.old }
    ensures { TextsRead (table names.now script.now result.split froms.new counts.new values.new nexts.new) heads.new result.split result.filled result.fault }
{
    let past = read_names(names, script, froms, counts, values, nexts, heads);
    let split = past.filled;
    let fault = past.fault;
    let filled = read_labels(names, script, split, froms, counts, values, nexts, heads);
    TextsPast {
        split,
        filled,
        fault,
    }
}

// Translates a script with a list of names into the target's first words; a refusal alters none.
pub fn translate<'a>(
    names: &'a [u8],
    script: &'a [u8],
    target: &mut [u16],
) -> Result<usize, (Refusal, Text)>
    ensures { Translates names.now script.now target.old result target.new }
{
    let mut froms: [usize; MOST_NAMES] = [0; MOST_NAMES];
    let mut counts: [usize; MOST_NAMES] = [0; MOST_NAMES];
    let mut values: [u32; MOST_NAMES] = [0; MOST_NAMES];
    let mut nexts: [u16; MOST_NAMES] = [NO_ENTRY; MOST_NAMES];
    let mut heads: [u16; MOST_NAMES] = [NO_ENTRY; MOST_NAMES];
    let TextsPast {
        split,
        filled,
        fault,
    } = read_texts(
        names,
        script,
        &mut froms,
        &mut counts,
        &mut values,
        &mut nexts,
        &mut heads,
    );
    // A match, since with map_err the goal of the refusal stays open.
    match judge_script(
        names,
        script,
        split,
        filled,
        &froms,
        &counts,
        &values,
        &nexts,
        &heads,
        fault,
        target.len(),
    ) {
        Err((r, line)) => Err((r, line.text)),
        Ok(words) => {
            store_words(
                names, script, split, filled, &froms, &counts, &values, &nexts, &heads, target,
            );
            Ok(words)
        }
    }
}

// What two texts come to, for a target of so many words.
pub fn judge<'a>(names: &'a [u8], script: &'a [u8], room: usize) -> Result<usize, Fault>
    ensures { result ≡ judged names.now script.now room }
{
    let mut froms: [usize; MOST_NAMES] = [0; MOST_NAMES];
    let mut counts: [usize; MOST_NAMES] = [0; MOST_NAMES];
    let mut values: [u32; MOST_NAMES] = [0; MOST_NAMES];
    let mut nexts: [u16; MOST_NAMES] = [NO_ENTRY; MOST_NAMES];
    let mut heads: [u16; MOST_NAMES] = [NO_ENTRY; MOST_NAMES];
    let TextsPast {
        split,
        filled,
        fault,
    } = read_texts(
        names,
        script,
        &mut froms,
        &mut counts,
        &mut values,
        &mut nexts,
        &mut heads,
    );
    judge_script(
        names, script, split, filled, &froms, &counts, &values, &nexts, &heads, fault, room,
    )
}

// A line, as the part of the text that it stands in.
fn line_of<'a>(names: &'a [u8], script: &'a [u8], line: Line) -> &'a [u8]
    requires { Within names.now script.now line }
    ensures { IsLine names.entry script.entry line result }
{
    let text = line.text;
    let from = line.from;
    let to = line.from + line.count;
    match text {
        Text::Names => &names[from..to],
        Text::Script => &script[from..to],
    }
}

// The refused line, as the part of the text that it stands in; where nothing is refused, the empty part at the script's start.
pub fn refused_line<'a>(names: &'a [u8], script: &'a [u8], room: usize) -> &'a [u8]
    ensures { NamesLine names.entry script.entry room result }
{
    match judge(names, script, room) {
        Ok(_) => &script[0..0],
        Err((_, line)) => line_of(names, script, line),
    }
}
