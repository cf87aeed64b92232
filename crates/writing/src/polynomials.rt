// The records of the polynomials, put into the lent bytes one after the other. Each call answers where the next byte goes.
ghost use Rattle.std.specs.Prelude.{◌≡◌, true, ◌+◌, ◌≤◌, ◌<◌, length};
ghost use Rattle.file.specs.Bytes.{over};
ghost use Rattle.system.specs.Heads.{places};
ghost use Rattle.file.specs.Layout.{layout};
ghost use Rattle.file.specs.Terms.{in_range};
ghost use Rattle.writing.specs.Writing.{Ready, term_bytes, terms_bytes, polynomial_bytes, polynomials_bytes};

use crate::counts::count;
use crate::pieces::{header, put, term};
use file::parser::Kind;
use file::terms::is_zero;
use system::head::Head;

// The term of place p, unless it is zero. A start takes a place apart too: three quotients, of which a contract would be longer.
fn put_place(target: &mut [u8], at: usize, h: Head, p: usize, x: i64) -> usize
    requires { (at + length (term_bytes (layout h) p x) ≤ length target.old)
        × ((p < 256) × (in_range x ≡ true)) }
    ensures { (result ≡ at + length (term_bytes (layout h) p x))
        × (target.new ≡ over target.old at (term_bytes (layout h) p x)) }
{
    if is_zero(x) {
        return at;
    }
    let b2 = usize::from(h.n2) + 1;
    let b3 = usize::from(h.n3) + 1;
    let q = p / b3;
    let bytes = term((q / b2) as u8, (q % b2) as u8, (p % b3) as u8, x);
    put(target, at, &bytes)
}

// The terms of one polynomial.
fn put_terms(target: &mut [u8], at: usize, h: Head, xs: &[i64]) -> usize
    requires { (at + length (terms_bytes (layout h) 0 xs.now) ≤ length target.old) × Ready (layout h) (layout h).size xs.now }
    ensures { (result ≡ at + length (terms_bytes (layout h) 0 xs.now))
        × (target.new ≡ over target.old at (terms_bytes (layout h) 0 xs.now)) }
{
    let mut o = at;
    for (p, x) in xs.iter().enumerate() {
        o = put_place(target, o, h, p, *x);
    }
    o
}

// The record of polynomial k.
fn put_polynomial(target: &mut [u8], at: usize, h: Head, k: u8, xs: &[i64]) -> usize
    requires { (at + length (polynomial_bytes (layout h) k xs.now) ≤ length target.old) × Ready (layout h) (layout h).size xs.now }
    ensures { (result ≡ at + length (polynomial_bytes (layout h) k xs.now))
        × (target.new ≡ over target.old at (polynomial_bytes (layout h) k xs.now)) }
{
    let len = 1 + 7 * count(xs);
    let number = put(target, at, &header(len as u16, Kind::Polynomial));
    let terms = put(target, number, &[k]);
    put_terms(target, terms, h, xs)
}

// The records of the m polynomials, from offset 12 on.
pub fn put_polynomials(target: &mut [u8], h: Head, xs: &[i64]) -> usize
    requires { (12 + length (polynomials_bytes (layout h) h.m 1 xs.now) ≤ length target.old) × Ready (layout h) (places h) xs.now }
    ensures { (result ≡ 12 + length (polynomials_bytes (layout h) h.m 1 xs.now))
        × (target.new ≡ over target.old 12 (polynomials_bytes (layout h) h.m 1 xs.now)) }
{
    let n = h.size();
    let mut o = 12;
    for k in 0..h.m {
        let base = n * usize::from(k);
        o = put_polynomial(target, o, h, k + 1, &xs[base..base + n]);
    }
    o
}
