// The pass over the script for its labels.
ghost use Rattle.std.specs.Prelude.{◌+◌, ◌<◌, ◌≤◌, ◌^◌, length};
ghost use Rattle.tokens.specs.Shown.{part};
ghost use Rattle.tables.specs.Tables.{table, Chained, Headed};
ghost use Rattle.giving.specs.Passes.{LabelRead, LabelsRead};

use flaws::label_value;
use giving::give;
use phrases::{Start, size, start_of};
use reader::line_count;
use tables::MOST_NAMES;

// How far the labels were read: the count of entries, and the count of words.
#[derive(Clone, Copy)]
pub struct LabelsPast {
    pub filled: usize,
    pub place: usize,
}

// A line of the script: its label has as value the number of words that the lines above it give.
fn read_label<'a>(
    names: &'a [u8],
    script: &'a [u8],
    split: usize,
    filled: usize,
    froms: &mut [usize; MOST_NAMES],
    counts: &mut [usize; MOST_NAMES],
    values: &mut [u32; MOST_NAMES],
    nexts: &mut [u16; MOST_NAMES],
    heads: &mut [u16; MOST_NAMES],
    at: usize,
    end: usize,
    place: usize,
) -> LabelsPast
    requires chained { Chained (table names.now script.now split froms.old counts.old values.old nexts.old) filled }
    requires headed { Headed (table names.now script.now split froms.old counts.old values.old nexts.old) filled heads.old }
    requires split_le_filled { split ≤ filled }
    requires at_le_end { (at ≤ end) × (end ≤ length script.now) }
    requires place_bound { place + 2 < 2 ^ 64 }
    ensures { LabelRead (table names.now script.now split froms.old counts.old values.old nexts.old) (table names.now script.now split froms.new counts.new values.new nexts.new) filled heads.new (part script.now at end) place result.filled result.place }
{
    let line = &script[at..end];
    let Start { label, body } = start_of(line);
    let next = place + size(line, body);
    match label {
        None => LabelsPast {
            filled,
            place: next,
        },
        Some((from, to)) => {
            let more = give(
                names,
                script,
                split,
                filled,
                froms,
                counts,
                values,
                nexts,
                heads,
                at + from,
                to - from,
                label_value(place),
            );
            LabelsPast {
                filled: more,
                place: next,
            }
        }
    }
}

// The labels, line by line.
pub fn read_labels<'a>(
    names: &'a [u8],
    script: &'a [u8],
    split: usize,
    froms: &mut [usize; MOST_NAMES],
    counts: &mut [usize; MOST_NAMES],
    values: &mut [u32; MOST_NAMES],
    nexts: &mut [u16; MOST_NAMES],
    heads: &mut [u16; MOST_NAMES],
) -> usize
    requires chained { Chained (table names.now script.now split froms.old counts.old values.old nexts.old) split }
    requires headed { Headed (table names.now script.now split froms.old counts.old values.old nexts.old) split heads.old }
    ensures { LabelsRead (table names.now script.now split froms.old counts.old values.old nexts.old) (table names.now script.now split froms.new counts.new values.new nexts.new) split heads.new script.now result }
{
    let mut filled = split;
    let mut place: usize = 0;
    let mut at: usize = 0;
    // A line ends where its byte 10 stands, so the place of the next is computed: no range gives these places.
    while at < script.len() {
        let end = at + line_count(script, at);
        let past = read_label(
            names, script, split, filled, froms, counts, values, nexts, heads, at, end, place,
        );
        filled = past.filled;
        place = past.place;
        at = end + 1;
    }
    filled
}
