// A task's own machine in one lent part, which begins at the task's row: the registers, the flags, and further on the segment. What an order does there, once its words are in hand.
#![tactic(auto)]

ghost use Rattle.std.specs.Prelude.{◌≡◌, Ok, Err, cond, ◌+◌, ◌-◌, ◌/◌, ◌%◌, ◌<◌, ◌≤◌, eqb, set as set_word, length};
ghost use Rattle.paper.specs.Image.{address as address_at};
ghost use Rattle.paper.specs.Orders.{op_of, order_of, two_registers, mod_word, stack, compared as compared_by, reading, storing, sets, unless_zero, calls as calls_by, found, effect, decided};
ghost use Rattle.paper.specs.declared.Change.{Change};
ghost use Rattle.order_table.specs.Entries.{entry_of, kind_of, decoded};
ghost use Rattle.effects.specs.Parts.{address_of, reach_of, stood_at, machine_of};
ghost use Rattle.effects.specs.Worked.{InHand, Fell, Done, Worked};
ghost use Rattle.effects.specs.declared.Went.{Went};

use order_table::kinds::{
    ADD, AND, COPY, DIVIDE, EXCLUSIVE_OR, FETCH, MULTIPLY, OR, STORE, SUBTRACT,
};
use paper::{
    Address, ERROR, FLAGS, NEXT_ORDER, OP, OUTSIDE, QUOTIENT, STACK, WORD_END, ZERO_DIVISOR,
};
use results::{both_bits, compared, difference, either_bit, one_bit, product, sum};

// Added mod 65536, the last word lowers by 1.
const LAST_WORD: u16 = (WORD_END - 1) as u16;

// Where an address leads, counted from the part's first word: in the segment or past it.
#[derive(Clone, Copy)]
pub struct Aim(pub usize);

// A place of the part that holds a word of the segment: counted apart from addresses, and from places of the image.
#[derive(Clone, Copy)]
pub struct PartPlace(pub usize);

// Where the segment lies in the part.
#[derive(Clone, Copy)]
pub struct Segment {
    pub from: usize,
    pub to: usize,
}

// What became of an order: R0 is in hand, and another may follow; or the row of orders ends, and R0 stands in the part; or it names R0 and is left.
// No case is a refusal or a lack, so this is no Result and no Option.
#[derive(Clone, Copy)]
pub enum Went {
    On(Aim),
    Off,
    Left(u16),
}

// Where an address leads, by the segment's base.
pub fn aimed(g: Segment, a: Address) -> Aim
    requires { g.from < 65536 }
    ensures { result.0 ≡ g.from + a.0 }
{
    Aim(g.from + a.0 as usize)
}

// So many words on.
pub fn onward(x: Aim, words: usize) -> Aim
    requires { (x.0 < 131072) × (words ≤ 2) }
    ensures { result.0 ≡ x.0 + words }
{
    Aim(x.0 + words)
}

// What an address reaches, by where it leads and the segment's length: a word of the segment, at its place, or none. Places are made here alone.
pub fn reached(g: Segment, x: Aim) -> Option<PartPlace>
    ensures { result ≡ reach_of g x }
{
    if x.0 < g.to {
        return Some(PartPlace(x.0));
    }
    None
}

// The address that leads there.
fn address(g: Segment, x: Aim) -> u16
    requires { (g.from ≤ x.0) × (x.0 - g.from < 65536) }
    ensures { result ≡ x.0 - g.from }
{
    (x.0 - g.from) as u16
}

// R0 in hand is written into the part.
pub fn stand(p: &mut [u16], g: Segment, x: Aim)
    requires p_nonzero { 0 < length p.old }
    requires from_le_x { (g.from ≤ x.0) × (x.0 - g.from < 65536) }
    ensures { p.new ≡ stood_at g p.old x }
{
    p[NEXT_ORDER] = address(g, x);
}

// An order faults: only the error changes.
pub fn fault(p: &mut [u16], g: Segment, at: Aim, e: u16) -> Went
    requires in_hand { InHand g p.old at }
    requires at_value { decided (machine_of g p.old at) ≡ Err e }
    requires e_nonzero { (0 < e) × (e < 8) }
    ensures { Fell g p.old at result p.new }
{
    stand(p, g, at);
    p[FLAGS] = p[FLAGS] + ERROR * e;
    Went::Off
}

// Register a becomes v, and R0 is in hand; where a is R0 it stands in the part.
pub fn set(p: &mut [u16], next: Aim, a: usize, v: u16) -> Went
    requires { a < length p.old }
    ensures value { result ≡ cond (eqb a 0) Went.Off (Went.On next) }
    ensures p_after { p.new ≡ set_word p.old a v }
{
    p[a] = v;
    if a == NEXT_ORDER {
        return Went::Off;
    }
    Went::On(next)
}

// Fetch.
fn fetches(p: &mut [u16], g: Segment, at: Aim, a: usize, y: u16) -> Went
    requires in_hand { InHand g p.old at }
    requires at_lt_to { at.0 < g.to }
    requires a_bound { a < 8 }
    requires at_value { decided (machine_of g p.old at) ≡ reading (found (machine_of g p.old at) y) (sets (address_of g at + 1) a) }
    ensures { Worked g p.old at a result p.new }
{
    let Some(PartPlace(k)) = reached(g, aimed(g, Address(y))) else {
        return fault(p, g, at, OUTSIDE);
    };
    let v = p[k];
    set(p, onward(at, 1), a, v)
}

// Store.
fn stores(p: &mut [u16], g: Segment, at: Aim, v: u16, y: u16) -> Went
    requires in_hand { InHand g p.old at }
    requires at_lt_to { at.0 < g.to }
    requires at_value { decided (machine_of g p.old at) ≡ storing (machine_of g p.old at) y (Ok (address_of g at + 1, Change.Store (address_at y) v)) }
    ensures { Done g p.old at result p.new }
{
    let Some(PartPlace(k)) = reached(g, aimed(g, Address(y))) else {
        return fault(p, g, at, OUTSIDE);
    };
    p[k] = v;
    Went::On(onward(at, 1))
}

// Quotient or remainder.
fn divides(p: &mut [u16], g: Segment, at: Aim, op: u16, a: usize, x: u16, y: u16) -> Went
    requires in_hand { InHand g p.old at }
    requires at_lt_to { at.0 < g.to }
    requires a_bound { a < 8 }
    requires at_value { decided (machine_of g p.old at) ≡ unless_zero y (sets (address_of g at + 1) a (cond (eqb op 8) (x / y) (x % y))) }
    ensures { Worked g p.old at a result p.new }
{
    if y == 0 {
        return fault(p, g, at, ZERO_DIVISOR);
    }
    if op == QUOTIENT {
        return set(p, onward(at, 1), a, x / y);
    }
    set(p, onward(at, 1), a, x % y)
}

// Compare.
fn compares(p: &mut [u16], at: Aim, x: u16, y: u16) -> Went
    requires { (8 < length p.old) × (at.0 < 131072) }
    ensures value { result ≡ Went.On (record { 0 = at.0 + 1 }) }
    ensures p_after { p.new ≡ set_word p.old 8 (compared_by x y) }
{
    p[FLAGS] = compared(x, y);
    Went::On(onward(at, 1))
}

// An order of two registers, by its kind and the words of the two.
pub fn works(
    p: &mut [u16],
    g: Segment,
    at: Aim,
    kind: u16,
    w: u16,
    a: usize,
    x: u16,
    y: u16,
) -> Went
    requires in_hand { InHand g p.old at }
    requires at_lt_to { at.0 < g.to }
    requires a_bound { a < 8 }
    requires w_value { kind_of w ≡ kind }
    requires w_value_2 { decoded (entry_of w) ≡ two_registers }
    requires at_value { decided (machine_of g p.old at) ≡ effect (order_of (op_of w)) (machine_of g p.old at) (address_of g at + 1) a x y }
    ensures { Worked g p.old at a result p.new }
{
    match kind {
        COPY => set(p, onward(at, 1), a, y),
        FETCH => fetches(p, g, at, a, y),
        STORE => stores(p, g, at, x, y),
        ADD => set(p, onward(at, 1), a, sum(x, y)),
        SUBTRACT => set(p, onward(at, 1), a, difference(x, y)),
        MULTIPLY => set(p, onward(at, 1), a, product(x, y)),
        DIVIDE => divides(p, g, at, w / OP, a, x, y),
        AND => set(p, onward(at, 1), a, both_bits(x, y)),
        OR => set(p, onward(at, 1), a, either_bit(x, y)),
        EXCLUSIVE_OR => set(p, onward(at, 1), a, one_bit(x, y)),
        _ => compares(p, at, x, y),
    }
}

// A call of n.
pub fn calls_to(p: &mut [u16], g: Segment, at: Aim, n: u16) -> Went
    requires in_hand { InHand g p.old at }
    requires at_lt_to { at.0 < g.to }
    requires at_value { decided (machine_of g p.old at) ≡ calls_by (machine_of g p.old at) (address_of g at + 2) (mod_word (stack (machine_of g p.old at) + 65535)) n }
    ensures { Done g p.old at result p.new }
{
    let top = sum(p[STACK], LAST_WORD);
    let Some(PartPlace(k)) = reached(g, aimed(g, Address(top))) else {
        return fault(p, g, at, OUTSIDE);
    };
    p[k] = address(g, onward(at, 2));
    p[STACK] = top;
    Went::On(aimed(g, Address(n)))
}
