// A box by value, and its halves down a path.
ghost use Rattle.std.specs.Prelude.{◌≡◌, ℕ, ◌<◌, Result};
ghost use Rattle.whole.specs.Half.{Half, lower, upper};
ghost use Rattle.bernstein.specs.Three.{three, ◌!◌, replace};
ghost use Rattle.bernstein.specs.Numbers.{span, unit, half_span, half_box};
ghost use Rattle.system.specs.Directions.{direction_number};
ghost use Rattle.boxes.specs.Boxes.{direction, direction_from, as_half, as_box, from_box, span_ok, box_ok, half_of, half_on};

use system::refusal::{Refusal, Refused};

#[derive(Clone, Copy, PartialEq, Eq)]
pub enum Direction {
    First,
    Second,
    Third,
}

#[derive(Clone, Copy, PartialEq, Eq)]
pub enum Half {
    Lower,
    Upper,
}

#[derive(Clone, Copy, PartialEq, Eq)]
pub struct Box {
    pub s1: u8,
    pub k1: u16,
    pub s2: u8,
    pub k2: u16,
    pub s3: u8,
    pub k3: u16,
}

// What a box has in one direction.
#[derive(Clone, Copy)]
struct Part {
    s: u8,
    k: u16,
}

impl Direction {
    // Of three values, one for each direction, the one of this direction.
    pub fn of<T: Copy>(self, first: T, second: T, third: T) -> T
        ensures { result ≡ three first second third ! direction self }
    {
        match self {
            Direction::First => first,
            Direction::Second => second,
            Direction::Third => third,
        }
    }
}

impl From<Direction> for u8 {
    ghost from_gives = { λ r n. n ≡ direction_number (direction r) };

    fn from(r: Direction) -> u8 {
        match r {
            Direction::First => 1,
            Direction::Second => 2,
            Direction::Third => 3,
        }
    }
}

impl TryFrom<u8> for Direction {
    type Error = Refused;

    ghost try_from_gives = { λ n r. r ≡ direction_from n };

    fn try_from(n: u8) -> Result<Self, Refused> {
        match n {
            1 => Ok(Direction::First),
            2 => Ok(Direction::Second),
            3 => Ok(Direction::Third),
            _ => Err(Refusal::OutsideRules.at_start()),
        }
    }
}

impl Part {
    fn ok(self) -> bool
        ensures { result ≡ span_ok (span self.s self.k) }
    {
        self.s <= 10 && self.k < 1u16 << self.s
    }

    fn half(self, half: Half) -> Self
        requires { (self.s < 10) × (self.k < 1024) }
        ensures { span result.s result.k ≡ half_span (as_half half) (span self.s self.k) }
    {
        let side = match half {
            Half::Lower => 0,
            Half::Upper => 1,
        };
        Part {
            s: self.s + 1,
            k: 2 * self.k + side,
        }
    }
}

impl Box {
    pub fn unit() -> Self
        ensures { result ≡ from_box unit }
    {
        Box {
            s1: 0,
            k1: 0,
            s2: 0,
            k2: 0,
            s3: 0,
            k3: 0,
        }
    }

    #[tactic(auto, unfolding(crate::specs::Boxes::box_ok))]
    pub fn ok(self) -> bool
        ensures { result ≡ box_ok self }
    {
        self.part(Direction::First).ok()
            && self.part(Direction::Second).ok()
            && self.part(Direction::Third).ok()
    }

    fn part(self, r: Direction) -> Part
        ensures { span result.s result.k ≡ as_box self ! direction r }
    {
        Part {
            s: r.of(self.s1, self.s2, self.s3),
            k: r.of(self.k1, self.k2, self.k3),
        }
    }

    fn with(mut self, r: Direction, i: Part) -> Self
        ensures { result ≡ from_box (replace (direction r) (span i.s i.k) (as_box self)) }
    {
        match r {
            Direction::First => {
                self.s1 = i.s;
                self.k1 = i.k;
            }
            Direction::Second => {
                self.s2 = i.s;
                self.k2 = i.k;
            }
            Direction::Third => {
                self.s3 = i.s;
                self.k3 = i.k;
            }
        }
        self
    }

    // The half of a box that may still be cut in direction r.
    pub fn half_in(self, r: Direction, half: Half) -> Self
        requires { ((as_box self ! direction r).cuts < 10) × ((as_box self ! direction r).position < 1024) }
        ensures { result ≡ from_box (half_box (as_half half) (direction r) (as_box self)) }
    {
        self.with(r, self.part(r).half(half))
    }

    #[tactic(auto, using(crate::proofs::Halves::part_within), unfolding(crate::specs::Boxes::half_of, crate::specs::Boxes::half_in))]
    fn half(self, dir: u8, half: Half) -> Result<Box, Refused>
        ensures { result ≡ half_of (as_half half) self dir }
    {
        let outside = Err(Refusal::OutsideRules.at_start());
        if !self.ok() {
            return outside;
        }
        let r = Direction::try_from(dir)?;
        if self.part(r).s < 10 {
            Ok(self.half_in(r, half))
        } else {
            outside
        }
    }

    // The direction is a number, as another one than 1 to 3 is refused too.
    pub fn lower(self, dir: u8) -> Result<Box, Refused>
        ensures { result ≡ half_of lower self dir }
    {
        self.half(dir, Half::Lower)
    }

    pub fn upper(self, dir: u8) -> Result<Box, Refused>
        ensures { result ≡ half_of upper self dir }
    {
        self.half(dir, Half::Upper)
    }
}

// Down a path: the halves of a half, where what is refused stays refused.
pub trait Halves: Sized {
    ghost use Rattle.boxes.specs.declared.half.Box.{Box};
    ghost use Rattle.system.specs.declared.refusal.Refused.{Refused};

    ghost half: { Half → Self → ℕ → Result Box Refused };

    fn lower(self, dir: u8) -> Result<Box, Refused>
        ensures { result ≡ half lower self dir };

    fn upper(self, dir: u8) -> Result<Box, Refused>
        ensures { result ≡ half upper self dir };
}

impl Halves for Result<Box, Refused> {
    ghost half = { half_on };

    fn lower(self, dir: u8) -> Result<Box, Refused> {
        self?.lower(dir)
    }

    fn upper(self, dir: u8) -> Result<Box, Refused> {
        self?.upper(dir)
    }
}
