// The calls on a file: read, write, and one step of a reader.
// (A buffer that a call only reads is lent for writing too, where another is written beside it: the check has no rule for a `&` there.)
use calls::answer::{Answer, Step};
use calls::hash;
use calls::header::Header;
use calls::memory::Memory;
use file::parser::{body_at, record_at};
use system::refusal::Refused;

pub fn read(memory: &mut Memory<'_>) -> Result<Answer, Refused> {
    let file = &mut *memory.file;
    Ok(Answer::Read(file::reading::read(file, memory.coefficients)?))
}

pub fn write(header: &Header, memory: &mut Memory<'_>) -> Result<Answer, Refused> {
    let coefficients = &mut *memory.coefficients;
    let length = writing::write(header.head, coefficients, memory.file)?;
    Ok(Answer::Written(length))
}

// What stands behind the record is in the file, so that its offset never wraps.
pub fn record(header: &Header, memory: &Memory<'_>) -> Result<Answer, Refused> {
    let at = header.offset;
    let record = record_at(memory.file, at)?;
    Ok(Answer::Record(Step {
        kind: record.kind,
        length: record.len,
        hash: hash::of_bytes(body_at(memory.file, at)),
        next: record.start.wrapping_add(record.len),
    }))
}
