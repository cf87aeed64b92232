// Reading a system file: all of it is checked in 01's order before the first place is filled.
ghost use Rattle.std.specs.Prelude.{◌≡◌, ◌++◌, ◌+◌, ◌≤◌, length, drop, Ok, IfOk};
ghost use Rattle.system.specs.Heads.{places};
ghost use Rattle.file.specs.Bytes.{word16};
ghost use Rattle.file.specs.Layout.{layout};
ghost use Rattle.file.specs.Reading.{polynomial, ending, polynomials, numbers_of, head_of, checked, reads};

use crate::bytes::two;
use crate::parser::{Kind, Shape, due_at};
use crate::terms::{fill_places, terms_at};
use system::head::Head;
use system::refusal::{Refusal, Refused};

const HEAD_SHAPE: Shape = Shape {
    base: 8,
    unit: 1,
    most: 0,
};

const END_SHAPE: Shape = Shape {
    base: 0,
    unit: 1,
    most: 0,
};

// The record of polynomial k.
#[tactic(auto, unfolding(crate::specs::Reading::polynomial))]
fn polynomial_at(file: &[u8], at: usize, k: u8, h: Head) -> Result<(), Refused>
    ensures says { result ≡ polynomial (layout h) k at (drop at file.now) }
    ensures room { IfOk result (λ u. at + 4 + word16 file.now at ≤ length file.now) }
{
    let shape = Shape {
        base: 1,
        unit: 7,
        most: h.size(),
    };
    due_at(file, at, Kind::Polynomial, shape)?;
    if file[at + 4] != k {
        return Err(Refusal::NotDue.at(at));
    }
    let t = (two(file, at) - 1) / 7;
    terms_at(file, at + 5, t, h)
}

// The last record, and nothing after it.
#[tactic(auto, unfolding(crate::specs::Reading::ending))]
fn end_at(file: &[u8], at: usize) -> Result<(), Refused>
    ensures { result ≡ ending at (drop at file.now) }
{
    due_at(file, at, Kind::End, END_SHAPE)?;
    if 4 < file.len() - at {
        return Err(Refusal::ExtraBytes.at(at + 4));
    }
    Ok(())
}

// The m polynomials from offset 12 on, and the end.
#[tactic(auto, using(crate::proofs::Walking::polynomials_step, crate::proofs::Walking::polynomials_none))]
fn polynomials_at(file: &[u8], h: Head) -> Result<(), Refused>
    ensures { result ≡ polynomials (layout h) h.m 1 12 (drop 12 file.now) }
{
    let mut o = 12;
    for k in 0..h.m {
        polynomial_at(file, o, k + 1, h)?;
        o += 4 + two(file, o);
    }
    end_at(file, o)
}

fn head_at(file: &[u8]) -> Head
    requires { 12 ≤ length file.now }
    ensures { result ≡ head_of file.now }
{
    Head::from([
        file[4], file[5], file[6], file[7], file[8], file[9], file[10], file[11],
    ])
}

// The whole file, nothing written.
#[tactic(auto, unfolding(crate::specs::Reading::checked))]
fn check(file: &[u8]) -> Result<(), Refused>
    ensures says { result ≡ checked file.now }
    ensures room { IfOk result (λ u. 12 ≤ length file.now) }
{
    due_at(file, 0, Kind::Head, HEAD_SHAPE)?;
    let h = head_at(file);
    h.check()?;
    polynomials_at(file, h)
}

// All coefficients of a file in order.
fn fill(file: &[u8], h: Head, out: &mut [i64])
    requires { (polynomials (layout h) h.m 1 12 (drop 12 file.now) ≡ Ok tt) × (places h ≤ length out.old) }
    ensures { out.new ≡ numbers_of (layout h) h.m (drop 12 file.now) ++ drop (places h) out.old }
{
    let n = h.size();
    let mut o = 12;
    for k in 0..usize::from(h.m) {
        let len = two(file, o);
        let base = n * k;
        let places = &mut out[base..base + n];
        fill_places(&file[o + 5..], (len - 1) / 7, h, places);
        o += 4 + len;
    }
}

// Reads a file into lent places. A refusal changes none of them.
#[tactic(auto, unfolding(crate::specs::Reading::reads))]
pub fn read(file: &[u8], out: &mut [i64]) -> Result<Head, Refused>
    ensures { (result ≡ (reads file.now out.old).0) × (out.new ≡ (reads file.now out.old).1) }
{
    check(file)?;
    let h = head_at(file);
    if out.len() < h.places() {
        return Err(Refusal::TooShort.at_start());
    }
    fill(file, h, out);
    Ok(h)
}
