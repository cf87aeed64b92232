// The system file, read: little-endian numbers, records, the terms of a polynomial, and the whole; a reader that stands on the lent file.
#![tactic(auto)]

pub mod bytes;
pub mod parser;
pub mod reader;
pub mod reading;
pub mod terms;
