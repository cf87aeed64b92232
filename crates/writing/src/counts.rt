// What the writer asks of coefficients: whether all are in the range, and how many are not zero.
ghost use Rattle.std.specs.Prelude.{◌≡◌, ◌≤◌, length};
ghost use Rattle.writing.specs.Counts.{count};
ghost use Rattle.writing.specs.Writing.{all_in_range};

use file::terms::{in_range, is_zero};

// A sum of ones takes several numbers at a time, where `filter` and `count` go one by one.
pub fn count(xs: &[i64]) -> usize
    ensures { (result ≡ count xs.now) × (result ≤ length xs.now) }
{
    let mut n = 0;
    for x in xs {
        if !is_zero(*x) {
            n += 1;
        }
    }
    n
}

// A start tests the same range, by the rules of a slot: one call each, and files know nothing of slots.
pub fn all_in_range(xs: &[i64]) -> bool
    ensures { result ≡ all_in_range xs.now }
{
    xs.iter().all(|x| in_range(*x))
}
