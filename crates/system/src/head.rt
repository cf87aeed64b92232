// The head of a system: its limits, its sizes, the place of a term and the scale. Every call takes any bytes.
ghost use Rattle.std.specs.Prelude.{◌≡◌, ◌+◌, ◌≤◌, OnOk, MatchResult, Ok, Err};
ghost use Rattle.bernstein.specs.Three.{three};
ghost use Rattle.bernstein.specs.Numbers as Numbers;
ghost use Rattle.bernstein.specs.Places as Places;
ghost use Rattle.system.specs.Heads.{degrees, places, depth, width, scale, variable_ok, head_ok, Limits, checked, head_from, head_numbers};

use crate::refusal::{Refusal, Refused};

#[derive(Clone, Copy, PartialEq, Eq)]
pub struct Head {
    pub l: u8,
    pub m: u8,
    pub n1: u8,
    pub n2: u8,
    pub n3: u8,
    pub g1: u8,
    pub g2: u8,
    pub g3: u8,
}

// A head within its limits.
#[derive(Clone, Copy, PartialEq, Eq)]
pub struct Limited {
    pub head: Head,
    ghost limits: { Limits head },
}

// As eight bytes, in a file and for C: l, m, n1, n2, n3, g1, g2, g3.
impl From<[u8; 8]> for Head {
    ghost from_gives = { λ b h. h ≡ head_from b };

    fn from(bytes: [u8; 8]) -> Self {
        let [l, m, n1, n2, n3, g1, g2, g3] = bytes;
        Head {
            l,
            m,
            n1,
            n2,
            n3,
            g1,
            g2,
            g3,
        }
    }
}

impl From<Head> for [u8; 8] {
    ghost from_gives = { λ h b. b ≡ head_numbers h };

    fn from(h: Head) -> [u8; 8] {
        [h.l, h.m, h.n1, h.n2, h.n3, h.g1, h.g2, h.g3]
    }
}

// The numbers that a degree has in its direction.
pub fn past(x: u8) -> usize
    ensures { (result ≡ x + 1) × (result ≤ 256) }
{
    usize::from(x) + 1
}

// Beyond variable l degree and depth are 0.
fn variable_ok(l: u8, r: u8, n: u8, g: u8) -> bool
    ensures { result ≡ variable_ok l r n g }
{
    n <= 6 && g <= 10 && (r <= l || (n == 0 && g == 0))
}

// A degree's factor; 1 for a degree that no head has.
#[tactic(auto, unfolding(bernstein::specs::Numbers::scale))]
fn factor(n: u8) -> usize
    ensures { (result ≡ Numbers.scale n) × (result ≤ 60) }
{
    match n {
        2 => 2,
        3 => 3,
        4 => 12,
        5 => 10,
        6 => 60,
        _ => 1,
    }
}

impl Head {
    #[tactic(auto, unfolding(crate::specs::Heads::head_ok))]
    pub fn ok(self) -> bool
        ensures { result ≡ head_ok self }
    {
        (1..=3).contains(&self.l)
            && (1..=3).contains(&self.m)
            && variable_ok(self.l, 1, self.n1, self.g1)
            && variable_ok(self.l, 2, self.n2, self.g2)
            && variable_ok(self.l, 3, self.n3, self.g3)
            && self.size() <= 64
    }

    pub fn check(self) -> Result<(), Refused>
        ensures is { result ≡ checked self }
        ensures within { OnOk result (Limits self) }
    {
        if self.ok() {
            Ok(())
        } else {
            Err(Refusal::OutOfLimits.at_start())
        }
    }

    // The same test, for calls that ask for a head within its limits.
    pub fn limited(self) -> Result<Limited, Refused>
        ensures { MatchResult result (λ t. (checked self ≡ Ok tt) × (t.head ≡ self)) (λ e. checked self ≡ Err e) }
    {
        self.check()?;
        Ok(Limited { head: self })
    }

    // S
    #[tactic(auto, unfolding(bernstein::specs::Places::size))]
    pub fn size(self) -> usize
        ensures { result ≡ Places.size (degrees self) }
    {
        past(self.n1) * past(self.n2) * past(self.n3)
    }

    // m × S
    #[tactic(auto, unfolding(crate::specs::Heads::places))]
    pub fn places(self) -> usize
        ensures { result ≡ places self }
    {
        usize::from(self.m) * self.size()
    }

    // D
    pub fn depth(self) -> usize
        ensures { result ≡ depth self }
    {
        usize::from(self.g1) + usize::from(self.g2) + usize::from(self.g3)
    }

    // The numbers of a slot.
    pub fn width(self) -> usize
        ensures { result ≡ width self }
    {
        6 + self.places()
    }

    #[tactic(auto, unfolding(bernstein::specs::Places::place))]
    pub fn place(self, i1: u8, i2: u8, i3: u8) -> usize
        ensures { result ≡ Places.place (degrees self) (three i1 i2 i3) }
    {
        (usize::from(i1) * past(self.n2) + usize::from(i2)) * past(self.n3) + usize::from(i3)
    }

    #[tactic(auto, unfolding(crate::specs::Heads::scale))]
    pub fn scale(self) -> usize
        ensures { result ≡ scale self }
    {
        factor(self.n1) * factor(self.n2) * factor(self.n3)
    }
}
