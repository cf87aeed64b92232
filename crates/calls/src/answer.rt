// What a call answers, printed as one line.
use boxes::half::Box;
use boxes::visit::{Outcome, Sign, Visit, Word};
use std::fmt;
use system::head::Head;
use system::refusal::Refused;

// The middles and the half widths of a box, each times 2^63, which is a whole number.
#[derive(Clone, Copy)]
pub struct Scaled {
    pub middles: [u64; 3],
    pub halves: [u64; 3],
}

// One step of a reader: the record's kind, a number, as it may be any; its body's length and hash, and the offset behind it.
#[derive(Clone, Copy)]
pub struct Step {
    pub kind: usize,
    pub length: usize,
    pub hash: u64,
    pub next: usize,
}

// No Result: a refusal is printed as every other answer is.
#[derive(Clone, Copy)]
pub enum Answer {
    Refused(Refused),
    Read(Head),
    // The file's length.
    Written(usize),
    Started,
    Sound,
    Stopped(Word),
    Saw(Visit),
    Half(Box),
    Middle(Scaled),
    Record(Step),
}

impl fmt::Display for Answer {
    fn fmt<W: fmt::Write>(&self, f: &mut fmt::Formatter<W>) -> fmt::Result {
        match *self {
            Answer::Refused(refused) => refusal(f, refused),
            Answer::Read(h) => head(f, h),
            Answer::Written(length) => write!(f, "written {length}"),
            Answer::Started => write!(f, "started"),
            Answer::Sound => write!(f, "sound"),
            Answer::Stopped(word) => stop(f, word),
            Answer::Saw(visit) => {
                outcome(f, visit.what)?;
                numbers(f, visit.at)
            }
            Answer::Half(half) => {
                write!(f, "box")?;
                numbers(f, half)
            }
            Answer::Middle(scaled) => middle(f, scaled),
            Answer::Record(step) => record(f, step),
        }
    }
}

fn refusal<W: fmt::Write>(f: &mut fmt::Formatter<W>, refused: Refused) -> fmt::Result {
    let number = u8::from(refused.why);
    let offset = refused.at;
    write!(f, "refused {number} at {offset}")
}

fn head<W: fmt::Write>(f: &mut fmt::Formatter<W>, h: Head) -> fmt::Result {
    let Head {
        l,
        m,
        n1,
        n2,
        n3,
        g1,
        g2,
        g3,
    } = h;
    write!(f, "read {l} {m} {n1} {n2} {n3} {g1} {g2} {g3}")
}

fn stop<W: fmt::Write>(f: &mut fmt::Formatter<W>, word: Word) -> fmt::Result {
    f.write_str(match word {
        Word::Finished => "finished",
        Word::Spent => "spent",
        Word::Full => "full",
    })
}

fn outcome<W: fmt::Write>(f: &mut fmt::Formatter<W>, what: Outcome) -> fmt::Result {
    match what {
        Outcome::Dropped(polynomial, Sign::Above) => write!(f, "dropped {polynomial} above"),
        Outcome::Dropped(polynomial, Sign::Below) => write!(f, "dropped {polynomial} below"),
        Outcome::Kept(mark) => write!(f, "kept {mark}"),
        Outcome::Cut(direction) => {
            let number = u8::from(direction);
            write!(f, "cut {number}")
        }
    }
}

// A box's numbers, each behind a space.
fn numbers<W: fmt::Write>(f: &mut fmt::Formatter<W>, at: Box) -> fmt::Result {
    let Box {
        s1,
        k1,
        s2,
        k2,
        s3,
        k3,
    } = at;
    write!(f, " {s1} {k1} {s2} {k2} {s3} {k3}")
}

fn middle<W: fmt::Write>(f: &mut fmt::Formatter<W>, scaled: Scaled) -> fmt::Result {
    let [m1, m2, m3] = scaled.middles;
    let [h1, h2, h3] = scaled.halves;
    write!(f, "middle {m1} {m2} {m3} {h1} {h2} {h3}")
}

fn record<W: fmt::Write>(f: &mut fmt::Formatter<W>, step: Step) -> fmt::Result {
    let Step {
        kind,
        length,
        hash,
        next,
    } = step;
    write!(f, "record {kind} {length} {hash:016x} {next}")
}
