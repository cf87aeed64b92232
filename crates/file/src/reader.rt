// A reader that stands on the lent file and hands out record after record, its body as a part of the file.
ghost use Rattle.std.specs.Prelude.{◌≡◌, drop};
ghost use Rattle.file.specs.Records.{step, body};
ghost use Rattle.file.specs.Reads.{after};

use crate::parser::{Record, body_at, record_at};
use system::refusal::Refused;

// No Iterator: where a record is cut short a step refuses, and so does the next, so that an iterator over steps would never end.
#[derive(Clone, Copy)]
pub struct Reader<'a> {
    pub file: &'a [u8],
    pub at: usize,
}

impl<'a> Reader<'a> {
    pub fn new(file: &'a [u8]) -> Reader<'a>
        ensures { (result.file ≡ file.entry) × (result.at ≡ 0) }
    {
        Reader { file, at: 0 }
    }

    pub fn offset(self) -> usize
        ensures { result ≡ self.entry.at }
    {
        self.at
    }

    // The record that the reader stands at, or 1 with the reader's own place.
    pub fn record(self) -> Result<Record, Refused>
        ensures { result ≡ step self.entry.at (drop self.entry.at self.entry.file.now) }
    {
        record_at(self.file, self.at)
    }

    // Its body; the empty part where there is none.
    pub fn body(self) -> &'a [u8]
        ensures { result.now ≡ body self.entry.file.now self.entry.at }
    {
        body_at(self.file, self.at)
    }

    // The reader at the record after it.
    pub fn next(self) -> Reader<'a>
        ensures { (result.file ≡ self.entry.file) × (result.at ≡ after self.entry.at (step self.entry.at (drop self.entry.at self.entry.file.now))) }
    {
        match record_at(self.file, self.at) {
            Ok(found) => Reader {
                file: self.file,
                at: found.start + found.len,
            },
            Err(_) => self,
        }
    }
}
