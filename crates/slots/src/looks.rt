// What the rules say of a slot: the steps 1 to 4 of a visit. Each function is one of the definitions in specs/Rules.
ghost use Rattle.std.specs.Prelude.{◌≡◌, ◌≤◌, pos};
ghost use Rattle.bernstein.specs.Three.{◌!◌};
ghost use Rattle.bernstein.specs.Places.{size};
ghost use Rattle.system.specs.Heads.{degrees, depths};
ghost use Rattle.boxes.specs.Boxes.{direction};
ghost use Rattle.slots.specs.Slots.{numbers, SlotFits};
ghost use Rattle.slots.specs.Rules.{limit, decided, cuts_in, below_depth, better, chosen, can_cut, able, by_choice, looked};

use crate::directions::Lines;
use crate::fronts::count_at;
use boxes::half::Direction;
use boxes::visit::{Outcome, Sign};
use system::head::Head;

// A slot that is looked at, and the head of its system.
#[derive(Clone, Copy)]
struct Slot<'a> {
    values: &'a [i64],
    head: Head,
    ghost fits: { SlotFits head values.now },
}

// 2 ^ (62 - n) - 1.
fn limit_of(n: usize) -> i64
    requires { n ≤ 6 }
    ensures { result ≡ pos (limit n) }
{
    let p: u64 = 1 << (62 - n);
    whole::of(p - 1)
}

impl Slot<'_> {
    // The lowest of the m polynomials with all numbers above zero or all below.
    fn decided(&self) -> Option<(u8, Sign)>
        ensures { result ≡ decided self.now.head.m (size (degrees self.now.head)) 1 (numbers self.now.values.now) }
    {
        let size = self.head.size();
        for p in 0..self.head.m {
            let start = 6 + usize::from(p) * size;
            if let Some(sign) = lines::sides::side_of(self.values, start, start + size) {
                return Some((p + 1, sign));
            }
        }
        None
    }

    fn cuts_in(&self, r: Direction) -> u64
        ensures { result ≡ cuts_in self.now.values.now r }
    {
        count_at(self.values, r.of(0, 2, 4))
    }

    fn below_depth(&self, r: Direction) -> bool
        ensures { result ≡ below_depth self.now.head self.now.values.now r }
    {
        self.cuts_in(r) < u64::from(r.of(self.head.g1, self.head.g2, self.head.g3))
    }

    // Direction r takes the place of the choice so far, if it may be cut and has fewer cuts.
    fn better(&self, best: Option<Direction>, r: Direction) -> Option<Direction>
        ensures { result ≡ better self.now.head self.now.values.now best r }
    {
        if !self.below_depth(r) {
            return best;
        }
        match best {
            Some(q) if self.cuts_in(q) <= self.cuts_in(r) => best,
            _ => Some(r),
        }
    }

    // The direction with the fewest cuts among those below their depth, ties to the lowest.
    fn chosen(&self) -> Option<Direction>
        ensures { result ≡ chosen self.now.head self.now.values.now }
    {
        [Direction::First, Direction::Second, Direction::Third]
            .iter()
            .fold(None, |best, r| self.better(best, *r))
    }

    fn can_cut(&self, r: Direction) -> bool
        ensures { result ≡ can_cut self.now.head (direction r) self.now.values.now }
    {
        let limit = limit_of(Lines::along(r, self.head).degree);
        // not `numbers::all_within` of the part from 6 on: that loop takes two instructions more at each turn
        lines::sides::all_within(self.values, 6, self.values.len(), limit)
    }

    // The steps 2 to 4.
    fn undecided(&self) -> Outcome
        ensures { result ≡ by_choice (able self.now.head self.now.values.now) (chosen self.now.head self.now.values.now) }
    {
        match self.chosen() {
            None => Outcome::Kept(1),
            Some(r) if self.can_cut(r) => Outcome::Cut(r),
            Some(_) => Outcome::Kept(2),
        }
    }

    #[tactic(auto, unfolding(crate::specs::Rules::looked))]
    fn looked(&self) -> Outcome
        ensures { result ≡ looked self.now.head self.now.values.now }
    {
        match self.decided() {
            Some((p, s)) => Outcome::Dropped(p, s),
            None => self.undecided(),
        }
    }
}

// The steps 1 to 4 of a visit on one slot.
pub fn look(slot: &[i64], h: Head) -> Outcome
    requires { SlotFits h slot.now }
    ensures { result ≡ looked h slot.now }
{
    Slot {
        values: slot,
        head: h,
    }
    .looked()
}
