// The calls by their numbers, and their names.
use crate::ended::Ended;
use std::fmt;

#[derive(Clone, Copy)]
pub enum Call {
    Read,
    Write,
    Start,
    Check,
    Visit,
    Run,
    Half,
    Middle,
    Record,
}

impl TryFrom<u64> for Call {
    type Error = Ended;

    fn try_from(number: u64) -> Result<Call, Ended> {
        match number {
            1 => Ok(Call::Read),
            2 => Ok(Call::Write),
            3 => Ok(Call::Start),
            4 => Ok(Call::Check),
            5 => Ok(Call::Visit),
            6 => Ok(Call::Run),
            7 => Ok(Call::Half),
            8 => Ok(Call::Middle),
            9 => Ok(Call::Record),
            _ => Err(Ended::NoCall),
        }
    }
}

impl fmt::Display for Call {
    fn fmt<W: fmt::Write>(&self, f: &mut fmt::Formatter<W>) -> fmt::Result {
        f.write_str(match *self {
            Call::Read => "read",
            Call::Write => "write",
            Call::Start => "start",
            Call::Check => "check",
            Call::Visit => "visit",
            Call::Run => "run",
            Call::Half => "half",
            Call::Middle => "middle",
            Call::Record => "record",
        })
    }
}
