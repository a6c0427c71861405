// Orders of a task's own machine, one after another: fetched, looked up in the table, told apart by kind, and carried out.
#![tactic(auto)]

ghost use Rattle.std.specs.Prelude.{◌≡◌, ◌/◌, ◌%◌, ◌<◌, get_or};
ghost use Rattle.paper.specs.Orders.{two_registers};
ghost use Rattle.paper.specs.declared.Op.{Op};
ghost use Rattle.order_table.specs.Entries.{OrderTable, kind_of_order, entry_of, kind_of, decoded};
ghost use Rattle.effects.specs.Parts.{Lent};
ghost use Rattle.effects.specs.Worked.{InHand, Carried};
ghost use Rattle.machine.specs.After.{Fetched, After};
ghost use Rattle.machine.specs.InRow.{part_after, row_length};

use connectives::{both, either};
use effects::{
    Aim, PartPlace, Segment, Went, aimed, calls_to, fault, onward, reached, set, stand, works,
};
use order_table::kinds::{
    ADD, AND, CALL, COMPARE, COPY, DIVIDE, EXCLUSIVE_OR, FETCH, LOAD, MULTIPLY, OR, RETURN,
    SERVICE_OR_UNKNOWN, STORE, SUBTRACT,
};
use order_table::{KIND, entry};
use paper::{
    Address, BAD_ORDER, BAD_SERVICE, FIELD, FLAGS, HIGH_BYTES, JUMP, MOST_CC, MOST_SERVICE,
    NEXT_ORDER, OP, OUTSIDE, PENDING, REGISTERS, SEND, SERVICE, STACK,
};
use results::{both_bits, sum};

// The registers that fields a and b name.
fn field_a(w: u16) -> usize
    ensures { result ≡ w / 16 % 8 }
{
    (w / FIELD % REGISTERS) as usize
}

fn field_b(w: u16) -> usize
    ensures { result ≡ w % 8 }
{
    (w % REGISTERS) as usize
}

// The order of two registers with first word w, which names R0: R0 is moved past it before operands are read.
fn named(p: &mut [u16], table: &[u16; HIGH_BYTES], g: Segment, at: Aim, w: u16)
    requires in_hand { InHand g p.old at }
    requires order_table { OrderTable table.now }
    requires fetched { Fetched g p.old at w }
    requires w_value { decoded (entry_of w) ≡ two_registers }
    ensures { Carried g p.old at p.new }
{
    let kind = entry(table, w / OP) / KIND;
    stand(p, g, onward(at, 1));
    let a = field_a(w);
    let x = p[a];
    let y = p[field_b(w)];
    if let Went::On(next) = works(p, g, at, kind, w, a, x, y) {
        stand(p, g, next);
    }
}

// An order of two registers, with first word w; one that names R0 is left.
fn two(p: &mut [u16], g: Segment, at: Aim, kind: u16, w: u16) -> Went
    requires in_hand { InHand g p.old at }
    requires fetched { Fetched g p.old at w }
    requires w_value { kind_of w ≡ kind }
    requires w_value_2 { decoded (entry_of w) ≡ two_registers }
    ensures { After g p.old at result p.new }
{
    let a = field_a(w);
    let b = field_b(w);
    if a == NEXT_ORDER || b == NEXT_ORDER {
        return Went::Left(w);
    }
    let x = p[a];
    let y = p[b];
    works(p, g, at, kind, w, a, x, y)
}

// Load.
fn loads(p: &mut [u16], g: Segment, at: Aim, w: u16) -> Went
    requires in_hand { InHand g p.old at }
    requires fetched { Fetched g p.old at w }
    requires w_value { kind_of w ≡ kind_of_order Op.Load }
    ensures { After g p.old at result p.new }
{
    let Some(PartPlace(k)) = reached(g, onward(at, 1)) else {
        return fault(p, g, at, OUTSIDE);
    };
    let n = p[k];
    set(p, onward(at, 2), field_a(w), n)
}

// Jump, and jump if.
fn jumps(p: &mut [u16], g: Segment, at: Aim, w: u16) -> Went
    requires in_hand { InHand g p.old at }
    requires fetched { Fetched g p.old at w }
    requires w_value { kind_of w ≡ kind_of_order Op.Jump }
    ensures { After g p.old at result p.new }
{
    let c = w / FIELD % FIELD;
    if MOST_CC < c {
        return fault(p, g, at, BAD_ORDER);
    }
    let Some(PartPlace(k)) = reached(g, onward(at, 1)) else {
        return fault(p, g, at, OUTSIDE);
    };
    if either(w / OP == JUMP, p[FLAGS] == c) {
        return Went::On(aimed(g, Address(p[k])));
    }
    Went::On(onward(at, 2))
}

// Call.
fn calls(p: &mut [u16], g: Segment, at: Aim, w: u16) -> Went
    requires in_hand { InHand g p.old at }
    requires fetched { Fetched g p.old at w }
    requires w_value { kind_of w ≡ kind_of_order Op.Call }
    ensures { After g p.old at result p.new }
{
    let Some(PartPlace(k)) = reached(g, onward(at, 1)) else {
        return fault(p, g, at, OUTSIDE);
    };
    let n = p[k];
    calls_to(p, g, at, n)
}

// Return.
fn returns(p: &mut [u16], g: Segment, at: Aim, w: u16) -> Went
    requires in_hand { InHand g p.old at }
    requires fetched { Fetched g p.old at w }
    requires w_value { kind_of w ≡ kind_of_order Op.Return }
    ensures { After g p.old at result p.new }
{
    let top = p[STACK];
    let Some(PartPlace(k)) = reached(g, aimed(g, Address(top))) else {
        return fault(p, g, at, OUTSIDE);
    };
    let n = p[k];
    p[STACK] = sum(top, 1);
    Went::On(aimed(g, Address(n)))
}

// A service, or an unknown op.
fn asks(p: &mut [u16], g: Segment, at: Aim, w: u16) -> Went
    requires in_hand { InHand g p.old at }
    requires fetched { Fetched g p.old at w }
    requires w_value { kind_of w ≡ kind_of_order Op.Service }
    ensures { After g p.old at result p.new }
{
    if w / OP != SERVICE {
        return fault(p, g, at, BAD_ORDER);
    }
    let a = w / FIELD % FIELD;
    if !both(SEND <= a, a <= MOST_SERVICE) {
        return fault(p, g, at, BAD_SERVICE);
    }
    stand(p, g, onward(at, 1));
    p[FLAGS] = p[FLAGS] + PENDING * a;
    Went::Off
}

// The order with first word w, by its kind.
fn by_kind(p: &mut [u16], g: Segment, at: Aim, kind: u16, w: u16) -> Went
    requires in_hand { InHand g p.old at }
    requires fetched { Fetched g p.old at w }
    requires w_value { kind_of w ≡ kind }
    ensures { After g p.old at result p.new }
{
    match kind {
        SERVICE_OR_UNKNOWN => asks(p, g, at, w),
        LOAD => loads(p, g, at, w),
        COPY => two(p, g, at, COPY, w),
        FETCH => two(p, g, at, FETCH, w),
        STORE => two(p, g, at, STORE, w),
        ADD => two(p, g, at, ADD, w),
        SUBTRACT => two(p, g, at, SUBTRACT, w),
        MULTIPLY => two(p, g, at, MULTIPLY, w),
        DIVIDE => two(p, g, at, DIVIDE, w),
        AND => two(p, g, at, AND, w),
        OR => two(p, g, at, OR, w),
        EXCLUSIVE_OR => two(p, g, at, EXCLUSIVE_OR, w),
        RETURN => returns(p, g, at, w),
        COMPARE => two(p, g, at, COMPARE, w),
        CALL => calls(p, g, at, w),
        _ => jumps(p, g, at, w),
    }
}

// The order with first word w: its fields have no bit that its entry of the table wants 0.
fn known(p: &mut [u16], table: &[u16; HIGH_BYTES], g: Segment, at: Aim, w: u16) -> Went
    requires in_hand { InHand g p.old at }
    requires order_table { OrderTable table.now }
    requires at_lt_to { at.0 < g.to }
    requires w_value { w ≡ get_or p.old at.0 0 }
    ensures { After g p.old at result p.new }
{
    let e = entry(table, w / OP);
    if both_bits(e, w) != 0 {
        return fault(p, g, at, BAD_ORDER);
    }
    by_kind(p, g, at, e / KIND, w)
}

// The order that R0 in hand leads to.
fn order(p: &mut [u16], table: &[u16; HIGH_BYTES], g: Segment, at: Aim) -> Went
    requires in_hand { InHand g p.old at }
    requires order_table { OrderTable table.now }
    ensures { After g p.old at result p.new }
{
    let Some(PartPlace(k)) = reached(g, at) else {
        return fault(p, g, at, OUTSIDE);
    };
    let w = p[k];
    known(p, table, g, at, w)
}

// Orders in a row, at most so many: up to one that faults, asks for a service or names R0 in a field. How many there were.
pub fn orders(p: &mut [u16], table: &[u16; HIGH_BYTES], g: Segment, most: u16) -> u16
    requires lent { Lent g p.old }
    requires order_table { OrderTable table.now }
    requires p_bound { get_or p.old 8 0 < 4 }
    requires most_nonzero { 0 < most }
    ensures value { result ≡ row_length g p.old most }
    ensures p_after { p.new ≡ part_after g p.old result }
{
    let mut at = aimed(g, Address(p[NEXT_ORDER]));
    for done in 0..most {
        match order(p, table, g, at) {
            Went::On(next) => at = next,
            Went::Off => return done + 1,
            Went::Left(w) => {
                named(p, table, g, at, w);
                return done + 1;
            }
        }
    }
    stand(p, g, at);
    most
}
