// The table of names and labels: an entry for each that is given, in their order, found by chains of entries whose words
// have one bucket, the latest first.
#![tactic(auto)]

ghost use Rattle.std.specs.Prelude.{◌≡◌, ◌+◌, ◌<◌, ◌≤◌, length, take, drop};
ghost use Rattle.grammar.specs.Sums.{find as found_in};
ghost use Rattle.tables.specs.Tables.{table, text_at, entry_word, entries, bucket, Chained, Headed, Links, above, Added, most};

// The most names and labels of two texts.
pub const MOST_NAMES: usize = 8192;

// Where a chain ends: no entry has this number.
pub const NO_ENTRY: u16 = 8192;

// How a word is mixed to one of the buckets.
const FACTOR: u64 = 2654435761;

const MIXED_END: u64 = 4294967296;

const BUCKET_SHARE: u64 = 524288;

// The bucket of a word.
fn bucket_of(word: &[u8]) -> usize
    ensures value { result ≡ bucket word.now }
    ensures upper_bound { result < most }
{
    let mut mixed: u64 = 0;
    for b in word {
        mixed = (mixed + u64::from(*b)) * FACTOR % MIXED_END;
    }
    (mixed / BUCKET_SHARE) as usize
}

// The word of an entry: the first entries stand in the names, the others in the script.
fn word_of<'a>(
    names: &'a [u8],
    script: &'a [u8],
    split: usize,
    k: usize,
    from: usize,
    count: usize,
) -> &'a [u8]
    requires { from + count ≤ length (text_at names.now script.now split k) }
    ensures { result.now ≡ take count (drop from (text_at names.now script.now split k)) }
{
    let to = from + count;
    if k < split {
        &names[from..to]
    } else {
        &script[from..to]
    }
}

// What is found of a word in a chain, which is walked by the numbers of its entries: memory is fixed, and a map would need a heap.
fn find<'a>(
    names: &'a [u8],
    script: &'a [u8],
    split: usize,
    filled: usize,
    froms: &[usize; MOST_NAMES],
    counts: &[usize; MOST_NAMES],
    values: &[u32; MOST_NAMES],
    nexts: &[u16; MOST_NAMES],
    link: u16,
    word: &[u8],
) -> Option<u32>
    requires chained { Chained (table names.now script.now split froms.now counts.now values.now nexts.now) filled }
    requires links { Links (table names.now script.now split froms.now counts.now values.now nexts.now) filled word.now link }
    ensures { result ≡ found_in (entries (table names.now script.now split froms.now counts.now values.now nexts.now) (above filled link)) word.now }
{
    let mut k = link as usize;
    while k < filled {
        let entry = word_of(names, script, split, k, froms[k], counts[k]);
        if entry == word {
            return Some(values[k]);
        }
        k = nexts[k] as usize;
    }
    None
}

// What is found of a word among all entries.
pub fn look<'a>(
    names: &'a [u8],
    script: &'a [u8],
    split: usize,
    filled: usize,
    froms: &[usize; MOST_NAMES],
    counts: &[usize; MOST_NAMES],
    values: &[u32; MOST_NAMES],
    nexts: &[u16; MOST_NAMES],
    heads: &[u16; MOST_NAMES],
    word: &[u8],
) -> Option<u32>
    requires chained { Chained (table names.now script.now split froms.now counts.now values.now nexts.now) filled }
    requires headed { Headed (table names.now script.now split froms.now counts.now values.now nexts.now) filled heads.now }
    ensures { result ≡ found_in (entries (table names.now script.now split froms.now counts.now values.now nexts.now) filled) word.now }
{
    let bucket = bucket_of(word);
    find(
        names,
        script,
        split,
        filled,
        froms,
        counts,
        values,
        nexts,
        heads[bucket],
        word,
    )
}

// What is found of the word of an entry among the entries before it.
pub fn look_before<'a>(
    names: &'a [u8],
    script: &'a [u8],
    split: usize,
    filled: usize,
    froms: &[usize; MOST_NAMES],
    counts: &[usize; MOST_NAMES],
    values: &[u32; MOST_NAMES],
    nexts: &[u16; MOST_NAMES],
    k: usize,
    word: &[u8],
) -> Option<u32>
    requires chained { Chained (table names.now script.now split froms.now counts.now values.now nexts.now) filled }
    requires k_lt_filled { k < filled }
    requires word_value { word.now ≡ entry_word (table names.now script.now split froms.now counts.now values.now nexts.now) k }
    ensures { result ≡ found_in (entries (table names.now script.now split froms.now counts.now values.now nexts.now) k) word.now }
{
    find(
        names, script, split, filled, froms, counts, values, nexts, nexts[k], word,
    )
}

// Puts an entry after the others: the first byte and the count of bytes of its word, and its value.
pub fn insert<'a>(
    names: &'a [u8],
    script: &'a [u8],
    split: usize,
    filled: usize,
    froms: &mut [usize; MOST_NAMES],
    counts: &mut [usize; MOST_NAMES],
    values: &mut [u32; MOST_NAMES],
    nexts: &mut [u16; MOST_NAMES],
    heads: &mut [u16; MOST_NAMES],
    from: usize,
    count: usize,
    value: u32,
)
    requires chained { Chained (table names.now script.now split froms.old counts.old values.old nexts.old) filled }
    requires headed { Headed (table names.now script.now split froms.old counts.old values.old nexts.old) filled heads.old }
    requires filled_lt_most { filled < most }
    requires count_in_bounds { from + count ≤ length (text_at names.now script.now split filled) }
    ensures { Added (table names.now script.now split froms.old counts.old values.old nexts.old) (table names.now script.now split froms.new counts.new values.new nexts.new) filled heads.new (take count (drop from (text_at names.now script.now split filled))) value }
{
    let bucket = bucket_of(word_of(names, script, split, filled, from, count));
    froms[filled] = from;
    counts[filled] = count;
    values[filled] = value;
    nexts[filled] = heads[bucket];
    heads[bucket] = filled as u16;
}
