// The records of a file: one record from an offset on, its body as a part of the lent file, and the record that is due.
// File and offset stay two parameters: the definitions are of an offset and of what is left there, and over a Reader each contract would be longer.
ghost use Rattle.std.specs.Prelude.{◌≡◌, ◌+◌, ◌<◌, ◌≤◌, length, drop, IfOk};
ghost use Rattle.file.specs.Bytes.{word16};
ghost use Rattle.file.specs.Records.{kind_number, step, body, fits, due};

use crate::bytes::two;
use system::refusal::{Refusal, Refused};

#[derive(Clone, Copy, PartialEq, Eq)]
pub enum Kind {
    Head,
    Polynomial,
    End,
}

impl From<Kind> for u8 {
    ghost from_gives = { λ k n. n ≡ kind_number k };

    fn from(kind: Kind) -> u8 {
        match kind {
            Kind::Head => 1,
            Kind::Polynomial => 2,
            Kind::End => 3,
        }
    }
}

// The lengths that a body may have: base, and up to `most` times `unit` more.
#[derive(Clone, Copy)]
pub struct Shape {
    pub base: usize,
    pub unit: usize,
    pub most: usize,
}

// A record: its kind, where its body starts, and the body's length. The kind is the number that stands there: a step takes a record of any kind.
#[derive(Clone, Copy, PartialEq, Eq)]
pub struct Record {
    pub kind: usize,
    pub start: usize,
    pub len: usize,
}

// The record from `at` on, whatever its kind.
#[tactic(auto, unfolding(crate::specs::Records::step), using(crate::proofs::Stepping::length_there, crate::proofs::Stepping::kind_there))]
pub fn record_at(file: &[u8], at: usize) -> Result<Record, Refused>
    ensures says { result ≡ step at (drop at file.now) }
    ensures inside { IfOk result (λ r. r.start + r.len ≤ length file.now) }
{
    let left = file.len().saturating_sub(at);
    if left < 4 {
        return Err(Refusal::Ended.at(at));
    }
    let len = two(file, at);
    if left - 4 < len {
        return Err(Refusal::Ended.at(at));
    }
    Ok(Record {
        kind: two(file, at + 2),
        start: at + 4,
        len,
    })
}

// Its body, a part of the file; the empty part where the record is cut short.
pub fn body_at<'a>(file: &'a [u8], at: usize) -> &'a [u8]
    ensures { result.now ≡ body file.now at }
{
    match record_at(file, at) {
        Ok(found) => {
            let end = found.start + found.len;
            &file[found.start..end]
        }
        Err(_) => &file[0..0],
    }
}

fn allowed(shape: Shape, n: usize) -> bool
    requires { 0 < shape.unit }
    ensures { result ≡ fits shape n }
{
    n >= shape.base
        && (n - shape.base) % shape.unit == 0
        && (n - shape.base) / shape.unit <= shape.most
}

// The record that is due at `at`: header, kind, length, body, in this order.
#[tactic(auto, unfolding(crate::specs::Records::due), using(crate::proofs::Stepping::length_there, crate::proofs::Stepping::kind_there))]
pub(crate) fn due_at(file: &[u8], at: usize, kind: Kind, shape: Shape) -> Result<(), Refused>
    requires { 0 < shape.unit }
    ensures says { result ≡ due (kind_number kind) shape at (drop at file.now) }
    ensures room { IfOk result (λ u. (at + 4 + word16 file.now at ≤ length file.now) × (shape.base ≤ word16 file.now at)) }
{
    let left = file.len().saturating_sub(at);
    if left < 4 {
        return Err(Refusal::Ended.at(at));
    }
    if two(file, at + 2) != usize::from(u8::from(kind)) {
        return Err(Refusal::NotDue.at(at));
    }
    let len = two(file, at);
    if !allowed(shape, len) {
        return Err(Refusal::WrongLength.at(at));
    }
    if left - 4 < len {
        return Err(Refusal::Ended.at(at));
    }
    Ok(())
}
