// Tests of numbers, and zeros: calls that know nothing of a slot.
ghost use Rattle.std.specs.Prelude.{◌≡◌, ◌≤◌, pos, nat_abs, ◌≤ℤ◌, length, take, replicate};
ghost use Rattle.slots.specs.Rules.{every, within};

// Every number is zero.
pub fn clear(slot: &mut [i64])
    ensures { slot.new ≡ replicate (length slot.old) (pos 0) }
{
    slot.fill(0);
}

// Whether the first n numbers are within 1,000,000,000 in size.
pub fn in_range(coefficients: &[i64], n: usize) -> bool
    requires { n ≤ length coefficients.now }
    ensures { result ≡ every (within 1000000000) (take n coefficients.now) }
{
    all_within(&coefficients[..n], 1000000000)
}

// Whether every number is at most the bound in size.
pub fn all_within(part: &[i64], bound: i64) -> bool
    requires { pos 0 ≤ℤ bound }
    ensures { result ≡ every (within (nat_abs bound)) part.now }
{
    lines::sides::all_within(part, 0, part.len(), bound)
}
