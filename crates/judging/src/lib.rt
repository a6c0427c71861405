// The pass over the script for its faults and its count of words.
#![tactic(auto)]

ghost use Rattle.std.specs.Prelude.{◌≡◌, ◌+◌, ◌<◌, ◌≤◌, ◌^◌, length};
ghost use Rattle.grammar.specs.Tokens.{tokens};
ghost use Rattle.grammar.specs.Lines.{label_of};
ghost use Rattle.grammar.specs.Texts.{room_flaw, noted as noted_by};
ghost use Rattle.tokens.specs.Shown.{part};
ghost use Rattle.tables.specs.Tables.{table, Chained, Headed};
ghost use Rattle.giving.specs.Passes.{KnownLabel, LineJudged, Labelled, ScriptJudged, one_more, line_at};

use flaws::{count_of, given_flaw, judge_by, lower, noted};
use giving::label_flaw;
use grammar::{Fault, Line, Refusal, Text};
use phrases::{Start, given, start_of};
use reader::line_count;
use tables::MOST_NAMES;

// How far the script was judged: the count of entries that are given above, the fault, and the count of words.
#[derive(Clone, Copy)]
pub struct ScriptPast {
    pub above: usize,
    pub fault: Option<Fault>,
    pub words: usize,
}

// One entry more, unless the table is full.
fn next_above(above: usize) -> usize
    ensures { result ≡ one_more above }
{
    if above < MOST_NAMES {
        return above + 1;
    }
    above
}

// A line of the script, judged with all names and labels given, and so many of them above it.
fn judge_line<'a>(
    names: &'a [u8],
    script: &'a [u8],
    split: usize,
    filled: usize,
    froms: &[usize; MOST_NAMES],
    counts: &[usize; MOST_NAMES],
    values: &[u32; MOST_NAMES],
    nexts: &[u16; MOST_NAMES],
    heads: &[u16; MOST_NAMES],
    at: usize,
    end: usize,
    above: usize,
    fault: Option<Fault>,
    words: usize,
) -> ScriptPast
    requires chained { Chained (table names.now script.now split froms.now counts.now values.now nexts.now) filled }
    requires headed { Headed (table names.now script.now split froms.now counts.now values.now nexts.now) filled heads.now }
    requires at_le_end { (at ≤ end) × (end ≤ length script.now) }
    requires known_label { KnownLabel (table names.now script.now split froms.now counts.now values.now nexts.now) filled above (label_of (tokens (part script.now at end))) }
    requires words_bound { words + 2 < 2 ^ 64 }
    ensures { LineJudged (table names.now script.now split froms.now counts.now values.now nexts.now) filled above at (part script.now at end) fault words result.above result.fault result.words }
{
    let line = &script[at..end];
    let here = Line {
        text: Text::Script,
        from: at,
        count: end - at,
    };
    let Start { label, body } = start_of(line);
    let g = given(
        names, script, split, filled, froms, counts, values, nexts, heads, line, body,
    );
    let more = words + count_of(g);
    match label {
        None => ScriptPast {
            above,
            fault: noted(fault, given_flaw(g), here),
            words: more,
        },
        Some((from, to)) => {
            let flaw = label_flaw(
                names,
                script,
                split,
                filled,
                froms,
                counts,
                values,
                nexts,
                above,
                &line[from..to],
            );
            ScriptPast {
                above: next_above(above),
                fault: noted(fault, lower(flaw, given_flaw(g)), here),
                words: more,
            }
        }
    }
}

// The fault with the room of the target taken into account.
fn with_room(
    fault: Option<Fault>,
    words: usize,
    room: usize,
    last: usize,
    stop: usize,
) -> Option<Fault>
    requires { last ≤ stop }
    ensures { result ≡ noted_by fault (room_flaw words room) (line_at last stop) }
{
    if words <= room {
        return fault;
    }
    noted(
        fault,
        Some(Refusal::NoRoom),
        Line {
            text: Text::Script,
            from: last,
            count: stop - last,
        },
    )
}

// What the script comes to, with all names and labels given.
pub fn judge_script<'a>(
    names: &'a [u8],
    script: &'a [u8],
    split: usize,
    filled: usize,
    froms: &[usize; MOST_NAMES],
    counts: &[usize; MOST_NAMES],
    values: &[u32; MOST_NAMES],
    nexts: &[u16; MOST_NAMES],
    heads: &[u16; MOST_NAMES],
    before: Option<Fault>,
    room: usize,
) -> Result<usize, Fault>
    requires chained { Chained (table names.now script.now split froms.now counts.now values.now nexts.now) filled }
    requires headed { Headed (table names.now script.now split froms.now counts.now values.now nexts.now) filled heads.now }
    requires split_le_filled { split ≤ filled }
    requires labelled { Labelled (table names.now script.now split froms.now counts.now values.now nexts.now) split filled script.now }
    ensures { ScriptJudged (table names.now script.now split froms.now counts.now values.now nexts.now) split filled script.now before room result }
{
    let mut fault = before;
    let mut above = split;
    let mut words: usize = 0;
    let mut at: usize = 0;
    let mut last: usize = 0;
    let mut stop: usize = 0;
    // A line ends where its byte 10 stands, so the place of the next is computed: no range gives these places.
    while at < script.len() {
        let end = at + line_count(script, at);
        let past = judge_line(
            names, script, split, filled, froms, counts, values, nexts, heads, at, end, above,
            fault, words,
        );
        fault = past.fault;
        above = past.above;
        words = past.words;
        last = at;
        stop = end;
        at = end + 1;
    }
    judge_by(with_room(fault, words, room, last, stop), words)
}
