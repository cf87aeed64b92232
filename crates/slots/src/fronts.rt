// The front of a slot: the six numbers of its box.
ghost use Rattle.std.specs.Prelude.{◌≡◌, ◌++◌, ◌<◌, ◌≤◌, pos, nat_abs, ◌≤ℤ◌, length};
ghost use Rattle.boxes.specs.Boxes.{as_box};
ghost use Rattle.slots.specs.Slots.{at, box_numbers, numbers};

use boxes::half::Box;

// A count of cuts or a position. `as`, since neither is below zero: with `unsigned_abs` a visit takes 17 instructions more.
pub fn count_at(slot: &[i64], i: usize) -> u64
    requires { (i < length slot.now) × (pos 0 ≤ℤ at slot.now i) }
    ensures { result ≡ nat_abs (at slot.now i) }
{
    let x = slot[i];
    x as u64
}

// The six numbers of a box stand first.
pub fn put_box(slot: &mut [i64], b: Box)
    requires { 6 ≤ length slot.old }
    ensures { slot.new ≡ box_numbers (as_box b) ++ numbers slot.old }
{
    slot[0] = b.s1.into();
    slot[1] = b.k1.into();
    slot[2] = b.s2.into();
    slot[3] = b.k2.into();
    slot[4] = b.s3.into();
    slot[5] = b.k3.into();
}
