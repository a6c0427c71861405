// The pass over the names: each line is read with the names above it.
ghost use Rattle.std.specs.Prelude.{◌≤◌, length};
ghost use Rattle.tokens.specs.Shown.{part};
ghost use Rattle.tables.specs.Tables.{table, Chained, Headed, most};
ghost use Rattle.giving.specs.Passes.{NameRead, NamesRead};

use flaws::{lower, noted, value_kept, worked_flaw};
use giving::{give, name_flaw};
use grammar::{Fault, Line, Refusal, Text};
use phrases::{NamesLine, names_line};
use reader::line_count;
use tables::MOST_NAMES;

// How far the names were read: the count of entries, and the fault.
#[derive(Clone, Copy)]
pub struct NamesPast {
    pub filled: usize,
    pub fault: Option<Fault>,
}

// A line of the names: it is read with the names above it, and gives its own.
fn read_name<'a>(
    names: &'a [u8],
    script: &'a [u8],
    filled: usize,
    froms: &mut [usize; MOST_NAMES],
    counts: &mut [usize; MOST_NAMES],
    values: &mut [u32; MOST_NAMES],
    nexts: &mut [u16; MOST_NAMES],
    heads: &mut [u16; MOST_NAMES],
    at: usize,
    end: usize,
    fault: Option<Fault>,
) -> NamesPast
    requires chained { Chained (table names.now script.now most froms.old counts.old values.old nexts.old) filled }
    requires headed { Headed (table names.now script.now most froms.old counts.old values.old nexts.old) filled heads.old }
    requires at_le_end { (at ≤ end) × (end ≤ length names.now) }
    ensures { NameRead (table names.now script.now most froms.old counts.old values.old nexts.old) (table names.now script.now most froms.new counts.new values.new nexts.new) filled heads.new at (part names.now at end) fault result.filled result.fault }
{
    let line = &names[at..end];
    let here = Line {
        text: Text::Names,
        from: at,
        count: end - at,
    };
    match names_line(
        names, script, MOST_NAMES, filled, froms, counts, values, nexts, heads, line,
    ) {
        None => NamesPast {
            filled,
            fault: noted(fault, Some(Refusal::OutsideGrammar), here),
        },
        Some(NamesLine::Blank) => NamesPast { filled, fault },
        Some(NamesLine::Gives(from, to, v)) => {
            let word = &line[from..to];
            let flaw = lower(
                name_flaw(
                    names, script, MOST_NAMES, filled, froms, counts, values, nexts, heads, word,
                ),
                worked_flaw(v),
            );
            let more = give(
                names,
                script,
                MOST_NAMES,
                filled,
                froms,
                counts,
                values,
                nexts,
                heads,
                at + from,
                to - from,
                value_kept(v),
            );
            NamesPast {
                filled: more,
                fault: noted(fault, flaw, here),
            }
        }
    }
}

// The names, line by line.
pub fn read_names<'a>(
    names: &'a [u8],
    script: &'a [u8],
    froms: &mut [usize; MOST_NAMES],
    counts: &mut [usize; MOST_NAMES],
    values: &mut [u32; MOST_NAMES],
    nexts: &mut [u16; MOST_NAMES],
    heads: &mut [u16; MOST_NAMES],
) -> NamesPast
    requires chained { Chained (table names.now script.now most froms.old counts.old values.old nexts.old) 0 }
    requires headed { Headed (table names.now script.now most froms.old counts.old values.old nexts.old) 0 heads.old }
    ensures { NamesRead (table names.now script.now most froms.new counts.new values.new nexts.new) heads.new names.now result.filled result.fault }
{
    let mut filled: usize = 0;
    let mut fault = None;
    let mut at: usize = 0;
    // A line ends where its byte 10 stands, so the place of the next is computed: no range gives these places.
    while at < names.len() {
        let end = at + line_count(names, at);
        let past = read_name(
            names, script, filled, froms, counts, values, nexts, heads, at, end, fault,
        );
        filled = past.filled;
        fault = past.fault;
        at = end + 1;
    }
    NamesPast { filled, fault }
}
