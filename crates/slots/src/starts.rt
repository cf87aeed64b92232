// The slot of a start: coefficients times their weights, then the steps along all lines of each direction.
ghost use Rattle.std.specs.Prelude.{◌≡◌, true, ◌++◌, ℕ, ◌+◌, ◌*◌, ◌-◌, ◌^◌, ◌<◌, ◌≤◌, pos, nat_abs, ◌*ℤ◌, length, take};
ghost use Rattle.whole.specs.Size.{Below};
ghost use Rattle.bernstein.specs.Three.{◌!◌};
ghost use Rattle.bernstein.specs.Numbers.{weight, weighted};
ghost use Rattle.bernstein.specs.Numbers as Numbers;
ghost use Rattle.bernstein.specs.Places.{size, index};
ghost use Rattle.system.specs.Heads.{degrees, places, width, Limits};
ghost use Rattle.boxes.specs.Boxes.{direction};
ghost use Rattle.slots.specs.Slots.{at, polynomial, numbers, in_turn, unit_slot};
ghost use Rattle.slots.specs.Rules.{every, within};
ghost use Rattle.slots.specs.Inside.{Weights};

use crate::directions::Lines;
use crate::fronts::put_box;
use boxes::half::{Box, Direction};
use system::head::Head;

// Entry i of row n is scale / C(n, i), for i from 0 to n.
const WEIGHTS: [[u32; 7]; 7] = [
    [1, 0, 0, 0, 0, 0, 0],
    [1, 1, 0, 0, 0, 0, 0],
    [2, 1, 2, 0, 0, 0, 0],
    [3, 1, 1, 3, 0, 0, 0],
    [12, 3, 2, 3, 12, 0, 0],
    [10, 2, 1, 1, 2, 10, 0],
    [60, 10, 4, 3, 4, 10, 60],
];

// The table of weights, which a start makes once.
#[derive(Drop)]
struct Table {
    rows: [[u32; 7]; 7],
    ghost weighs: { Weights rows },
}

// A system that may start: a coefficient in range for each of its places; those beyond are not looked at. The slot stays an argument: a struct that
// holds it as `&mut` would say in each `ensures` which reference it keeps.
#[derive(Clone, Copy)]
pub struct Startable<'a> {
    pub head: Head,
    pub coefficients: &'a [i64],
    ghost limits: { Limits head },
    ghost enough: { places head ≤ length coefficients.now },
    ghost ranged: { every (within 1000000000) (take (places head) coefficients.now) ≡ true },
}

#[tactic(auto, using(crate::proofs::Weighing::times_below))]
fn times(w: u32, x: i64) -> i64
    requires { (w ≤ 216000) × (nat_abs x ≤ 1000000000) }
    ensures { result ≡ pos w *ℤ x }
{
    i64::from(w) * x
}

impl Table {
    fn weight_of(&self, n: u8, i: usize) -> u32
        requires { (n ≤ 6) × (i ≤ n) }
        ensures { (result ≡ weight n i) × (result ≤ 60) }
    {
        self.rows[usize::from(n)][i]
    }
}

impl Startable<'_> {
    // The weight of the number at place p of a polynomial. The writer takes a place apart too: one function for both would have a contract longer than it.
    fn weight_at(&self, table: &Table, p: usize) -> u32
        requires { p < size (degrees self.now.head) }
        ensures { (result ≡ weight self.now.head.n1 (index (degrees self.now.head) p).x₁ * weight self.now.head.n2 (index (degrees self.now.head) p).x₂ * weight self.now.head.n3 (index (degrees self.now.head) p).x₃) × (result ≤ 216000) }
    {
        let h = self.head;
        let entries2 = usize::from(h.n2) + 1;
        let entries3 = usize::from(h.n3) + 1;
        let row = p / entries3;
        let a = table.weight_of(h.n1, row / entries2);
        let b = table.weight_of(h.n2, row % entries2);
        let c = table.weight_of(h.n3, p % entries3);
        a * b * c
    }

    // The coefficients times their weights, after the box.
    fn weigh(&self, table: &Table, slot: &mut [i64])
        requires { length slot.old ≡ width self.now.head }
        ensures { slot.new ≡ take 6 slot.old ++ in_turn self.now.head (λ t. weighted (degrees self.now.head) (polynomial self.now.head self.now.coefficients.now t)) }
    {
        let size = self.head.size();
        for x in 0..self.head.places() {
            slot[6 + x] = times(self.weight_at(table, x % size), self.coefficients[x]);
        }
    }

    // All steps along all lines of direction r.
    fn spread(&self, slot: &mut [i64], r: Direction)
        requires { (length slot.old ≡ width self.now.head) × ((x : ℕ) → x < places self.now.head → Below (2 ^ (62 - degrees self.now.head ! direction r)) (at slot.old (6 + x))) }
        ensures { slot.new ≡ take 6 slot.old ++ in_turn self.now.head (λ t. Numbers.spread (degrees self.now.head) (direction r) (polynomial self.now.head (numbers slot.old) t)) }
    {
        let along = Lines::along(r, self.head);
        lines::spread_blocks(slot, 6, along.blocks, along.stride, along.degree);
    }
}

// The slot of a start.
pub fn start(slot: &mut [i64], system: &Startable)
    requires { length slot.old ≡ width system.now.head }
    ensures { slot.new ≡ unit_slot system.now.head system.now.coefficients.now }
{
    put_box(slot, Box::unit());
    let table = Table { rows: WEIGHTS };
    system.weigh(&table, slot);
    system.spread(slot, Direction::Third);
    system.spread(slot, Direction::Second);
    system.spread(slot, Direction::First);
}
