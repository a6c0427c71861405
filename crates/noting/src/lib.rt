// Ticks noted in lent counts as they are taken: one answer, orders in a row, or nothing where no counts are lent.
#![tactic(auto)]

ghost use Rattle.std.specs.Prelude.{◌≡◌, ◌<◌};
ghost use Rattle.paper.specs.Image.{most_tasks};
ghost use Rattle.paper.specs.Numbers.{answer_task};
ghost use Rattle.paper.specs.Counts.{tally, all_counts, grown, counted};
ghost use Rattle.counting.specs.Room.{Room};
ghost use Rattle.noting.specs.Noted.{orders_counted, Ledger};

use counting::{add, counted_at, place_of, tally_of};
use paper::{Answer, Heading, Task};

// A count grows by n, where there are counts.
// No counts are an empty list and no Option of an array: the definitions leave an empty list as it is, so no clause from here to the run tells the two apart.
pub fn note(counts: &mut [u32], k: usize, n: usize)
    requires ledger { Ledger counts.old }
    requires k_lt_all_counts { k < all_counts }
    requires room { Room counts.old n }
    ensures { counts.new ≡ grown counts.old k n }
{
    if counts.len() != 0 {
        add(counts, k, n);
    }
}

// Notes orders of a task in a row, the last of which may have faulted.
pub fn note_orders(counts: &mut [u32], t: Task, n: usize, faulted: bool)
    requires ledger { Ledger counts.old }
    requires t_lt_most_tasks { t.0 < most_tasks }
    requires room { Room counts.old n }
    requires n_nonzero { 0 < n }
    ensures { counts.new ≡ orders_counted counts.old t n faulted }
{
    if faulted {
        note(counts, place_of(t, Heading::Orders), n - 1);
        note(counts, place_of(t, Heading::Faults), 1);
        return;
    }
    note(counts, place_of(t, Heading::Orders), n);
}

// Notes an answer.
#[tactic(auto, using(crate::proofs::Noting::tally_within))]
pub fn note_answer(counts: &mut [u32], a: Answer)
    requires ledger { Ledger counts.old }
    requires a_bound { answer_task a < most_tasks }
    requires room { Room counts.old 1 }
    ensures { counts.new ≡ counted counts.old (tally a) }
{
    if let Some(k) = counted_at(tally_of(a)) {
        note(counts, k, 1);
    }
}
