// The header of a call: twenty numbers, each made into one of the library's types, in the order in which they stand.
use crate::call::Call;
use crate::ended::Ended;
use crate::numbers::{next_field, next_number};
use boxes::half::{Box, Half};
use std::io::Read;
use system::head::Head;
use waiting::state::State;

// The bytes, numbers or records of each buffer.
#[derive(Clone, Copy)]
pub struct Lengths {
    pub file: usize,
    pub coefficients: usize,
    pub store: usize,
    pub list: usize,
}

#[derive(Clone, Copy)]
pub struct Header {
    pub call: Call,
    pub lengths: Lengths,
    pub head: Head,
    pub state: State,
    pub budget: u32,
    pub direction: u8,
    pub half: Half,
    pub at: Box,
    pub offset: usize,
}

impl Lengths {
    fn read<R: Read>(from: &mut R) -> Result<Lengths, Ended> {
        Ok(Lengths {
            file: next_field(from)?,
            coefficients: next_field(from)?,
            store: next_field(from)?,
            list: next_field(from)?,
        })
    }
}

fn head<R: Read>(from: &mut R) -> Result<Head, Ended> {
    let mut bytes = [0; 8];
    from.read_exact(&mut bytes)?;
    Ok(Head::from(bytes))
}

fn state<R: Read>(from: &mut R) -> Result<State, Ended> {
    Ok(State {
        waiting: next_field(from)?,
        kept: next_field(from)?,
        visits: next_number(from)?,
        dropped: next_number(from)?,
    })
}

fn half<R: Read>(from: &mut R) -> Result<Half, Ended> {
    match next_number(from)? {
        0 => Ok(Half::Lower),
        1 => Ok(Half::Upper),
        _ => Err(Ended::NoCall),
    }
}

fn a_box<R: Read>(from: &mut R) -> Result<Box, Ended> {
    Ok(Box {
        s1: next_field(from)?,
        k1: next_field(from)?,
        s2: next_field(from)?,
        k2: next_field(from)?,
        s3: next_field(from)?,
        k3: next_field(from)?,
    })
}

impl Header {
    pub fn read<R: Read>(from: &mut R) -> Result<Header, Ended> {
        let mut bytes = [0; 160];
        from.read_exact(&mut bytes)?;
        let mut fields = &bytes[..];
        let from = &mut fields;
        Ok(Header {
            call: Call::try_from(next_number(from)?)?,
            lengths: Lengths::read(from)?,
            head: head(from)?,
            state: state(from)?,
            budget: next_field(from)?,
            direction: next_field(from)?,
            half: half(from)?,
            at: a_box(from)?,
            offset: next_field(from)?,
        })
    }
}
