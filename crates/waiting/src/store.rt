// Slots of the waiting store, by number: the tests of a slot, its box, and what the crate slots makes of it.
ghost use Rattle.std.specs.Prelude.{◌≡◌, suc, ◌+◌, ◌*◌, ◌^◌, ◌≤◌, ◌<◌, leb, nat_abs, length};
ghost use Rattle.whole.specs.Half.{lower, upper};
ghost use Rattle.system.specs.Heads.{width};
ghost use Rattle.boxes.specs.Boxes.{direction, from_box};
ghost use Rattle.slots.specs.Slots.{at, box_in, half_slot, SlotFits};
ghost use Rattle.slots.specs.Rules.{looked};
ghost use Rattle.search.specs.Lent.{slot, in_slot, given_up};
ghost use Rattle.waiting.specs.Cells.{cells};
ghost use Rattle.waiting.specs.States.{needed, span_ok, spans_ok, slot_ok, slots_ok};
ghost use Rattle.waiting.specs.States.{MayCut};

use boxes::half::{Box, Direction};
use boxes::visit::Outcome;
use slots::cuts::{box_of, cut};
use slots::looks::look;
use slots::numbers::{all_within, clear};
use std::ops::Range;
use system::head::{Head, Limited};
use whole::size;

// Whether a store of that length has the D + 1 slots.
pub fn long_enough(h: Limited, length: usize) -> bool
    ensures { result ≡ leb (needed h.head) length }
{
    (h.head.depth() + 1) * h.head.width() <= length
}

// Where slot p stands.
fn range_of(h: Head, p: usize) -> Range<usize>
    requires { p * width h + width h < 2 ^ 64 }
    ensures { (result.start ≡ p * width h) × (result.end ≡ p * width h + width h) }
{
    let w = h.width();
    p * w..p * w + w
}

// ---- the tests of a slot
// A count of cuts, without its sign, of which nothing is known yet: what slots reads a count by asks that it is not below zero.
fn count(slot: &[i64], i: usize) -> u64
    requires { i < length slot.now }
    ensures { result ≡ nat_abs (at slot.now i) }
{
    size(slot[i])
}

// Whether s and k are those of a direction of depth g.
#[tactic(auto, using(whole::proofs::Machine::one_shl), unfolding(crate::specs::States::span_ok))]
fn span_ok(s: i64, k: i64, g: u8) -> bool
    requires { g ≤ 10 }
    ensures { result ≡ span_ok g s k }
{
    0 <= s && size(s) <= u64::from(g) && 0 <= k && size(k) < 1 << size(s)
}

fn spans_ok(slot: &[i64], h: Limited) -> bool
    requires { length slot.now ≡ width h.head }
    ensures { result ≡ spans_ok h.head slot.now }
{
    span_ok(slot[0], slot[1], h.head.g1)
        && span_ok(slot[2], slot[3], h.head.g2)
        && span_ok(slot[4], slot[5], h.head.g3)
}

// Whether a slot may stand as slot p.
#[tactic(auto, using(crate::proofs::Slotting::rest_is), unfolding(crate::specs::States::slot_ok))]
fn slot_ok(slot: &[i64], h: Limited, p: usize) -> bool
    requires { length slot.now ≡ width h.head }
    ensures { result ≡ slot_ok h.head p slot.now }
{
    if !spans_ok(slot, h) {
        return false;
    }
    let cuts = count(slot, 0) + count(slot, 2) + count(slot, 4);
    all_within(&slot[6..], 4611686018427387903) && p as u64 <= cuts
}

// Whether the waiting slots, from slot 0 on, are allowed.
pub fn slots_ok(store: &[i64], h: Limited, waiting: usize) -> bool
    requires { waiting * width h.head ≤ length store.now }
    ensures { result ≡ slots_ok h.head waiting store.now }
{
    for p in 0..waiting {
        if !slot_ok(slot_at(store, h.head, p), h, p) {
            return false;
        }
    }
    true
}

// ---- what is read off a slot
// The store, the head and the number stay arguments: a struct that holds the store to read serves neither `give_up` nor `cut_at`, which change it.
fn slot_at<'a>(store: &'a [i64], h: Head, p: usize) -> &'a [i64]
    requires { p * width h + width h ≤ length store.now }
    ensures { result.now ≡ slot (width h) p store.now }
{
    &store[range_of(h, p)]
}

pub fn box_at(store: &[i64], h: Head, p: usize) -> Box
    requires { (p * width h + width h ≤ length store.now) × SlotFits h (slot (width h) p store.now) }
    ensures { result ≡ from_box (box_in (slot (width h) p store.now)) }
{
    box_of(slot_at(store, h, p))
}

pub fn look_at(store: &[i64], h: Head, p: usize) -> Outcome
    requires { (p * width h + width h ≤ length store.now) × SlotFits h (slot (width h) p store.now) }
    ensures { result ≡ looked h (slot (width h) p store.now) }
{
    look(slot_at(store, h, p), h)
}

// ---- what is made of a slot
pub fn give_up(store: &mut [i64], h: Head, p: usize)
    requires { p * width h + width h ≤ length store.old }
    ensures { store.new ≡ given_up (cells h) p store.old }
{
    clear(&mut store[range_of(h, p)]);
}

// The upper half takes the slot, the lower half goes into the slot above.
pub fn cut_at(store: &mut [i64], h: Head, p: usize, r: Direction)
    requires { (p * width h + width h + width h ≤ length store.old) × MayCut h r (slot (width h) p store.old) }
    ensures { store.new ≡ in_slot (cells h) (suc p) (half_slot h lower (direction r) (slot (width h) p store.old)) (in_slot (cells h) p (half_slot h upper (direction r) (slot (width h) p store.old)) store.old) }
{
    let w = h.width();
    cut(&mut store[p * w..p * w + w + w], h, r);
}
