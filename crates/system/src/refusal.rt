// Why a call refuses, with 01's number, and where in the file.
ghost use Rattle.std.specs.Prelude.{◌≡◌};
ghost use Rattle.system.specs.Refusals.{number, at, at_start};

#[derive(Clone, Copy, PartialEq, Eq)]
pub enum Refusal {
    Ended,
    NotDue,
    WrongLength,
    OutOfLimits,
    ExponentTooHigh,
    BadCoefficient,
    NotRising,
    ExtraBytes,
    TooShort,
    OutsideRules,
}

#[derive(Clone, Copy, PartialEq, Eq)]
pub struct Refused {
    pub why: Refusal,
    pub at: usize,
}

impl From<Refusal> for u8 {
    ghost from_gives = { λ w n. n ≡ number w };

    fn from(why: Refusal) -> u8 {
        match why {
            Refusal::Ended => 1,
            Refusal::NotDue => 2,
            Refusal::WrongLength => 3,
            Refusal::OutOfLimits => 4,
            Refusal::ExponentTooHigh => 5,
            Refusal::BadCoefficient => 6,
            Refusal::NotRising => 7,
            Refusal::ExtraBytes => 8,
            Refusal::TooShort => 9,
            Refusal::OutsideRules => 10,
        }
    }
}

impl Refusal {
    pub fn at(self, offset: usize) -> Refused
        ensures { result ≡ at self offset }
    {
        Refused {
            why: self,
            at: offset,
        }
    }

    // In a call that reads no file the offset is 0.
    pub fn at_start(self) -> Refused
        ensures { result ≡ at_start self }
    {
        self.at(0)
    }
}
