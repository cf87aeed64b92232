// The cut of a slot into the two halves of its box.
ghost use Rattle.std.specs.Prelude.{◌≡◌, true, ◌++◌, ◌+◌, ◌<◌, ◌≤◌, nat_abs, length, take};
ghost use Rattle.whole.specs.Half.{lower, upper};
ghost use Rattle.bernstein.specs.Three as Three;
ghost use Rattle.bernstein.specs.Three.{◌!◌};
ghost use Rattle.system.specs.Heads.{depths, width};
ghost use Rattle.boxes.specs.Boxes.{direction, from_box};
ghost use Rattle.slots.specs.Slots.{at, column, box_in, half_slot, SpanFits, SlotFits};
ghost use Rattle.slots.specs.Rules.{can_cut};

use crate::directions::Lines;
use crate::fronts::{count_at, put_box};
use boxes::half::{Box, Direction, Half};
use system::head::Head;

// The s and the k of a direction, from place i on. `as`, since they fit: `try_from` would give a Result that is never an Err.
fn span_at(slot: &[i64], i: usize) -> (u8, u16)
    requires { (i + 1 < length slot.now) × SpanFits 10 (at slot.now i) (at slot.now (i + 1)) }
    ensures { (result.0 ≡ nat_abs (at slot.now i)) × (result.1 ≡ nat_abs (at slot.now (i + 1))) }
{
    (count_at(slot, i) as u8, count_at(slot, i + 1) as u16)
}

// The box of a slot.
pub fn box_of(slot: &[i64]) -> Box
    requires { (6 ≤ length slot.now) × ((q : Three.Direction) → SpanFits 10 (at slot.now (column q)) (at slot.now (column q + 1))) }
    ensures { result ≡ from_box (box_in slot.now) }
{
    let (s1, k1) = span_at(slot, 0);
    let (s2, k2) = span_at(slot, 2);
    let (s3, k3) = span_at(slot, 4);
    Box {
        s1,
        k1,
        s2,
        k2,
        s3,
        k3,
    }
}

// The slot at the front of `two` is cut in direction r: the upper half takes it, the lower half goes into the slot after it.
pub fn cut(two: &mut [i64], h: Head, r: Direction)
    requires { SlotFits h (take (width h) two.old) × (length two.old ≡ width h + width h) × ((box_in (take (width h) two.old) ! direction r).cuts < depths h ! direction r) × (can_cut h (direction r) (take (width h) two.old) ≡ true) }
    ensures { two.new ≡ half_slot h upper (direction r) (take (width h) two.old) ++ half_slot h lower (direction r) (take (width h) two.old) }
{
    let w = h.width();
    let b = box_of(two);
    put_box(&mut two[w..], b.half_in(r, Half::Lower));
    put_box(two, b.half_in(r, Half::Upper));
    let along = Lines::along(r, h);
    lines::blocks(two, 6, w + 6, along.blocks, along.stride, along.degree);
}
