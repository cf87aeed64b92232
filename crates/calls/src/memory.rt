// The memory that a call brings along: the state and the four buffers. It is printed as the call leaves it.
use crate::ended::Ended;
use crate::hash;
use crate::header::Header;
use crate::numbers::fill;
use std::fmt;
use std::io::Read;
use waiting::state::State;

// Room for the buffers of any call.
#[derive(Drop)]
pub struct Room {
    file: [u8; 4096],
    coefficients: [i64; 200],
    store: [i64; 6200],
    list: [[u16; 7]; 64],
}

#[derive(Drop)]
pub struct Memory<'a> {
    pub state: State,
    pub file: &'a mut [u8],
    pub coefficients: &'a mut [i64],
    pub store: &'a mut [i64],
    // Seven numbers for each record.
    pub list: &'a mut [u16],
}

fn first<T>(places: &mut [T], count: usize) -> Result<&mut [T], Ended> {
    places.get_mut(..count).ok_or(Ended::NoCall)
}

impl Room {
    pub fn new() -> Room {
        Room {
            file: [0; 4096],
            coefficients: [0; 200],
            store: [0; 6200],
            list: [[0; 7]; 64],
        }
    }

    // The memory that stands behind the header.
    pub fn filled<R: Read>(&mut self, from: &mut R, header: &Header) -> Result<Memory<'_>, Ended> {
        let lengths = header.lengths;
        let Room {
            file,
            coefficients,
            store,
            list,
        } = self;
        let file = first(file, lengths.file)?;
        let coefficients = first(coefficients, lengths.coefficients)?;
        let store = first(store, lengths.store)?;
        let list = first(list, lengths.list)?.as_flattened_mut();
        from.read_exact(file)?;
        fill(from, coefficients)?;
        fill(from, store)?;
        fill(from, list)?;
        Ok(Memory {
            state: header.state,
            file,
            coefficients,
            store,
            list,
        })
    }
}

impl Memory<'_> {
    // How many records the list holds.
    pub fn records(&self) -> usize {
        self.list.len() / 7
    }
}

impl fmt::Display for Memory<'_> {
    fn fmt<W: fmt::Write>(&self, f: &mut fmt::Formatter<W>) -> fmt::Result {
        let State {
            waiting,
            kept,
            visits,
            dropped,
        } = self.state;
        writeln!(f, "state {waiting} {kept} {visits} {dropped}")?;
        line(f, "file", self.file.len(), hash::of_bytes(self.file))?;
        line(
            f,
            "coefficients",
            self.coefficients.len(),
            hash::of_numbers(self.coefficients),
        )?;
        line(f, "waiting", self.store.len(), hash::of_numbers(self.store))?;
        line(f, "kept", self.records(), hash::of_numbers(self.list))
    }
}

fn line<W: fmt::Write>(
    f: &mut fmt::Formatter<W>,
    name: &str,
    length: usize,
    hash: u64,
) -> fmt::Result {
    writeln!(f, "{name} {length} {hash:016x}")
}
