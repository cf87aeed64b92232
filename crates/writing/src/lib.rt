// Writing a system file. All of it is checked, and its length counted, before the first byte is written.
#![tactic(auto)]

mod counts;
mod pieces;
mod polynomials;

ghost use Rattle.std.specs.Prelude.{◌≡◌};
ghost use Rattle.writing.specs.Writing.{writes};

use counts::{all_in_range, count};
use file::parser::Kind;
use pieces::{head_record, header, put};
use polynomials::put_polynomials;
use system::head::Head;
use system::refusal::{Refusal, Refused};

// Writes a system into lent bytes, and answers how many they are. A refusal changes none of them.
#[tactic(auto, unfolding(crate::specs::Writing::writes, crate::specs::Writing::writable), using(crate::proofs::Joining::file_length))]
pub fn write(h: Head, coefficients: &[i64], out: &mut [u8]) -> Result<usize, Refused>
    ensures { (result ≡ (writes h coefficients.now out.old).0) × (out.new ≡ (writes h coefficients.now out.old).1) }
{
    h.check()?;
    let n = h.places();
    if coefficients.len() < n {
        return Err(Refusal::TooShort.at_start());
    }
    let xs = &coefficients[..n];
    if !all_in_range(xs) {
        return Err(Refusal::BadCoefficient.at_start());
    }
    let len = 16 + 5 * usize::from(h.m) + 7 * count(xs);
    if out.len() < len {
        return Err(Refusal::TooShort.at_start());
    }
    put(out, 0, &head_record(h));
    let last = put_polynomials(out, h, xs);
    put(out, last, &header(0, Kind::End));
    Ok(len)
}
