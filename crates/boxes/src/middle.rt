// The middle and the half width of a box in each direction, as doubles, exact.
ghost use Rattle.std.specs.Prelude.{◌≡◌, ◌+◌, ◌^◌, ◌%◌, ◌≤◌, ◌<◌};
ghost use Rattle.bernstein.specs.Numbers.{span};
ghost use Rattle.boxes.specs.Middles.{over_power, middle, half_width, placed, middle_numbers};

use crate::half::Box;
use system::refusal::{Refusal, Refused};

#[derive(Clone, Copy)]
pub struct Middles {
    pub middle1: f64,
    pub half1: f64,
    pub middle2: f64,
    pub half2: f64,
    pub middle3: f64,
    pub half3: f64,
}

// Of each direction its middle and its half width.
impl From<Middles> for [f64; 6] {
    ghost from_gives = { λ m x. x ≡ middle_numbers m };

    fn from(m: Middles) -> [f64; 6] {
        [m.middle1, m.half1, m.middle2, m.half2, m.middle3, m.half3]
    }
}

// One direction.
#[derive(Clone, Copy)]
struct Pair {
    middle: f64,
    half: f64,
}

fn power(s: u8) -> u16
    requires { s ≤ 10 }
    ensures { result ≡ 2 ^ (s + 1) }
{
    2u16 << s
}

// m / 2^(s+1), for an odd m.
fn over(m: u16, s: u8) -> f64
    requires { (s ≤ 10) × (m % 2 ≡ 1) }
    ensures { result ≡ over_power m s }
{
    f64::from(m) / f64::from(power(s))
}

fn interval(s: u8, k: u16) -> Pair
    requires { (s ≤ 10) × (k < 1024) }
    ensures { (result.middle ≡ middle (span s k)) × (result.half ≡ half_width (span s k)) }
{
    Pair {
        middle: over(2 * k + 1, s),
        half: over(1, s),
    }
}

impl Box {
    pub fn middles(self) -> Result<Middles, Refused>
        ensures { result ≡ placed self }
    {
        if !self.ok() {
            return Err(Refusal::OutsideRules.at_start());
        }
        let a = interval(self.s1, self.k1);
        let b = interval(self.s2, self.k2);
        let c = interval(self.s3, self.k3);
        Ok(Middles {
            middle1: a.middle,
            half1: a.half,
            middle2: b.middle,
            half2: b.half,
            middle3: c.middle,
            half3: c.half,
        })
    }
}
