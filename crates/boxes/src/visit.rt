// What a visit says: the box, and what became of it; and the words that a run ends with.
ghost use Rattle.std.specs.Prelude.{◌≡◌};
ghost use Rattle.boxes.specs.Visits.{outcome_numbers, visit_numbers, word_number};

use crate::half::{Box, Direction};
pub use whole::Sign;

#[derive(Clone, Copy, PartialEq, Eq)]
pub enum Outcome {
    // The polynomial that drops the box.
    Dropped(u8, Sign),
    // The mark: a number, as the list has it for C and as the theory of any search has it.
    Kept(u8),
    Cut(Direction),
}

#[derive(Clone, Copy, PartialEq, Eq)]
pub struct Visit {
    pub at: Box,
    pub what: Outcome,
}

#[derive(Clone, Copy, PartialEq, Eq)]
pub enum Word {
    Finished,
    Spent,
    Full,
}

// An outcome as C has it: which case, its value, and a drop's sign.
impl From<Outcome> for [u8; 3] {
    ghost from_gives = { λ o n. n ≡ outcome_numbers o };

    fn from(o: Outcome) -> [u8; 3] {
        match o {
            Outcome::Dropped(p, s) => [1, p, s.into()],
            Outcome::Kept(mark) => [2, mark, 0],
            Outcome::Cut(d) => [3, d.into(), 0],
        }
    }
}

// The box, and what became of it.
impl From<Visit> for [u16; 9] {
    ghost from_gives = { λ v n. n ≡ visit_numbers v };

    fn from(v: Visit) -> [u16; 9] {
        let b = v.at;
        let [case, value, sign] = <[u8; 3]>::from(v.what);
        [
            b.s1.into(),
            b.k1,
            b.s2.into(),
            b.k2,
            b.s3.into(),
            b.k3,
            case.into(),
            value.into(),
            sign.into(),
        ]
    }
}

impl From<Word> for u8 {
    ghost from_gives = { λ w n. n ≡ word_number w };

    fn from(w: Word) -> u8 {
        match w {
            Word::Finished => 1,
            Word::Spent => 2,
            Word::Full => 3,
        }
    }
}
