// The terms of a polynomial: their order, and the coefficients that they say. Of a head they use only its layout.
ghost use Rattle.std.specs.Prelude.{◌≡◌, ◌+◌, ◌*◌, ◌≤◌, ◌<◌, length, drop};
ghost use Rattle.file.specs.Layout.{layout};
ghost use Rattle.file.specs.Terms.{exponents, place_of, value_of, in_range, is_zero, term, terms, here, coefficients};

use crate::bytes::four;
use system::head::Head;
use system::refusal::{Refusal, Refused};

// The term that the bytes begin with: whether its exponents are within the degrees, its place and its coefficient.
fn within(bytes: &[u8], h: Head) -> bool
    requires { 3 ≤ length bytes.now }
    ensures { result ≡ (layout h).within (exponents bytes.now) }
{
    bytes[0] <= h.n1 && bytes[1] <= h.n2 && bytes[2] <= h.n3
}

fn place_of(bytes: &[u8], h: Head) -> usize
    requires { 3 ≤ length bytes.now }
    ensures { (result ≡ place_of (layout h) bytes.now) × (result < 16777216) }
{
    h.place(bytes[0], bytes[1], bytes[2])
}

fn value_of(bytes: &[u8]) -> i64
    requires { 7 ≤ length bytes.now }
    ensures { result ≡ value_of bytes.now }
{
    four(bytes, 3)
}

pub fn in_range(x: i64) -> bool
    ensures { result ≡ in_range x }
{
    x.unsigned_abs() <= 1000000000
}

pub fn is_zero(x: i64) -> bool
    ensures { result ≡ is_zero x }
{
    x == 0
}

// One term, at an offset: exponents, coefficient, place at least `next`.
#[tactic(auto, unfolding(crate::specs::Terms::term))]
fn check_term(bytes: &[u8], at: usize, next: usize, h: Head) -> Result<(), Refused>
    requires { 7 ≤ length bytes.now }
    ensures { result ≡ term (layout h) at next bytes.now }
{
    if !within(bytes, h) {
        return Err(Refusal::ExponentTooHigh.at(at));
    }
    let x = value_of(bytes);
    if !in_range(x) || is_zero(x) {
        return Err(Refusal::BadCoefficient.at(at));
    }
    if place_of(bytes, h) < next {
        return Err(Refusal::NotRising.at(at));
    }
    Ok(())
}

// The t terms from `at` on.
#[tactic(auto, using(crate::proofs::Walking::terms_none))]
pub(crate) fn terms_at(file: &[u8], at: usize, t: usize, h: Head) -> Result<(), Refused>
    requires { at + 7 * t ≤ length file.now }
    ensures { result ≡ terms (layout h) t at 0 (drop at file.now) }
{
    let mut next = 0;
    for i in 0..t {
        let o = at + 7 * i;
        let bytes = &file[o..];
        check_term(bytes, o, next, h)?;
        next = place_of(bytes, h) + 1;
    }
    Ok(())
}

// Whether the next of the `left` terms is that of place p.
fn here(bytes: &[u8], left: usize, p: usize, h: Head) -> bool
    requires { 7 * left ≤ length bytes.now }
    ensures { result ≡ here (layout h) left p bytes.now }
{
    left > 0 && place_of(bytes, h) == p
}

// The coefficients of one polynomial, from the t terms that the bytes begin with, into its places.
pub(crate) fn fill_places(bytes: &[u8], t: usize, h: Head, places: &mut [i64])
    requires { (7 * t ≤ length bytes.now) × (length places.old ≡ (layout h).size) }
    ensures { places.new ≡ coefficients (layout h) (layout h).size t 0 bytes.now }
{
    let mut rest = bytes;
    let mut left = t;
    for (p, place) in places.iter_mut().enumerate() {
        if here(rest, left, p, h) {
            *place = value_of(rest);
            rest = &rest[7..];
            left -= 1;
        } else {
            *place = 0;
        }
    }
}
