// Makes calls of the library, each on the memory that it brings along, and prints their answers and the memory after them.
// tests/reference/CALLS.md has the form of both. Nothing is printed of a call that is not in that form, or after it.
#![tactic(auto)]

mod boxing;
mod filing;
mod making;
mod searching;

use arrayvec::ArrayVec;
use calls::ended::Ended;
use calls::header::Header;
use calls::memory::Room;
use std::io::{Read, Write};

// A call, its answer and the memory after it are printed by one write: they have less than 400 bytes.
fn one<R: Read, W: Write>(
    from: &mut R,
    to: &mut W,
    room: &mut Room,
    index: u32,
) -> Result<(), Ended> {
    let header = Header::read(from)?;
    let call = header.call;
    let mut memory = room.filled(from, &header)?;
    let answer = making::answer(&header, &mut memory);
    let mut text = ArrayVec::<u8, 512>::new();
    write!(text, "call {index} {call}\n{answer}\n{memory}")?;
    Ok(to.write_all(text.as_slice())?)
}

// One call after another, up to the end of the input.
fn all<R: Read, W: Write>(from: &mut R, to: &mut W) -> Result<(), Ended> {
    let mut room = Room::new();
    for index in 0..=u32::MAX {
        one(from, to, &mut room, index)?;
    }
    Ok(())
}

// Why the calls end is not told.
fn main(rt: HostRuntime) {
    let _ = all(&mut rt.stdin(), &mut rt.stdout());
}
