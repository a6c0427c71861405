// The counts of who used the machine: where an answer is counted, one count growing, and whether counts have room.
#![tactic(auto)]

ghost use Rattle.std.specs.Prelude.{◌≡◌, false, ◌<◌, length};
ghost use Rattle.paper.specs.Counts.{tally, count_place, grown, counted, at_end as end_at, passes_end};
ghost use Rattle.counting.specs.Room.{RoomAt, AllUpto, RoomIf, tally_place};

use paper::{Answer, HEADINGS, Heading, IDLE_COUNT, MOST_COUNT, Tally, Task};

// Where an answer is counted.
pub fn tally_of(a: Answer) -> Tally
    ensures { result ≡ tally a }
{
    match a {
        Answer::Idle => Tally::Idle,
        Answer::ErrorStop(t) => Tally::Under(t, Heading::ErrorStops),
        Answer::TurnPassed(t) => Tally::Under(t, Heading::PassedTurns),
        Answer::ServiceDone(t) => Tally::Under(t, Heading::Services),
        Answer::ServiceWaits(t) => Tally::Under(t, Heading::Waits),
        Answer::ServiceFaulted(t) => Tally::Under(t, Heading::Faults),
        Answer::OrderDone(t) => Tally::Under(t, Heading::Orders),
        Answer::OrderFaulted(t) => Tally::Under(t, Heading::Faults),
        Answer::Input(_) | Answer::OutputDone(_) => Tally::Nowhere,
    }
}

// The place of a task's count.
pub fn place_of(t: Task, h: Heading) -> usize
    ensures { result ≡ count_place t h }
{
    HEADINGS * t.0 as usize + h as usize
}

// The place of the count where an answer is counted, if it is counted.
pub fn counted_at(t: Tally) -> Option<usize>
    ensures { result ≡ tally_place t }
{
    match t {
        Tally::Nowhere => None,
        Tally::Idle => Some(IDLE_COUNT),
        Tally::Under(i, h) => Some(place_of(i, h)),
    }
}

// A count that is there grows by n.
pub fn add(counts: &mut [u32], k: usize, n: usize)
    requires k_in_bounds { k < length counts.old }
    requires room_at { RoomAt counts.old k n }
    ensures { counts.new ≡ grown counts.old k n }
{
    counts[k] += n as u32;
}

// A count grows by 1, where it is there.
fn add_one(counts: &mut [u32], k: usize)
    requires { RoomAt counts.old k 1 }
    ensures { counts.new ≡ grown counts.old k 1 }
{
    if k < counts.len() {
        add(counts, k, 1);
    }
}

// An answer is counted once.
pub fn count(counts: &mut [u32], t: Tally)
    requires { passes_end counts.old t ≡ false }
    ensures { counts.new ≡ counted counts.old t }
{
    if let Some(k) = counted_at(t) {
        add_one(counts, k);
    }
}

// Whether the count at a place is at its end.
fn at_end(counts: &[u32], k: usize) -> bool
    ensures { result ≡ end_at counts.now k }
{
    counts.get(k).is_some_and(|count| *count == MOST_COUNT)
}

// Whether the count of an answer would pass its end.
pub fn passes_end(counts: &[u32], t: Tally) -> bool
    ensures { result ≡ passes_end counts.now t }
{
    counted_at(t).is_some_and(|k| at_end(counts, k))
}

// The greatest of the counts.
fn greatest(counts: &[u32]) -> u32
    ensures { AllUpto counts.now result }
{
    counts.iter().copied().max().unwrap_or(0)
}

// Whether every count has room for n more.
pub fn has_room(counts: &[u32], n: usize) -> bool
    ensures { RoomIf result counts.now n }
{
    n <= (MOST_COUNT - greatest(counts)) as usize
}
