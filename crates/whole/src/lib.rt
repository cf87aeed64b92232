// Small functions on 64-bit signed numbers, each with the whole number that it gives. Sums stand in the code that needs them.
#![tactic(auto)]

ghost use Rattle.std.specs.Prelude.{◌≡◌, ◌<◌, ◌^◌, pos, nat_abs, ◌*ℤ◌};
ghost use Rattle.whole.specs.Size.{Below};
ghost use Rattle.whole.specs.Side.{side_of, sign_number};

// A strict sign; zero has none.
#[derive(Clone, Copy, PartialEq, Eq)]
pub enum Sign {
    Above,
    Below,
}

impl From<Sign> for u8 {
    ghost from_gives = { λ s n. n ≡ sign_number s };

    fn from(s: Sign) -> u8 {
        match s {
            Sign::Above => 1,
            Sign::Below => 2,
        }
    }
}

// 2 ^ e.
pub fn pow2(e: usize) -> i64
    requires { e < 62 }
    ensures { result ≡ pos (2 ^ e) }
{
    let p: usize = 1 << e;
    p as i64
}

// x times 2 ^ e, which fits.
pub fn scaled(x: i64, e: usize) -> i64
    requires { (e < 62) × Below (2 ^ 63) (pos (2 ^ e) *ℤ x) }
    ensures { result ≡ pos (2 ^ e) *ℤ x }
{
    pow2(e) * x
}

// An unsigned number as a signed one, where it fits: `i64::try_from` would give a Result that is never an Err.
pub fn of(u: u64) -> i64
    requires { u < 2 ^ 63 }
    ensures { result ≡ pos u }
{
    u as i64
}

// The number without its sign. -2^63 has no negative that fits, and yet a size. A function of its own, as two wrong edits of it have to be refused.
pub fn size(x: i64) -> u64
    ensures { result ≡ nat_abs x }
{
    x.unsigned_abs()
}

// Above zero, below zero, or neither.
pub fn side_of(x: i64) -> Option<Sign>
    ensures { result ≡ side_of x }
{
    if x < 0 {
        return Some(Sign::Below);
    }
    if 0 < x {
        return Some(Sign::Above);
    }
    None
}
