// Reads standard input and writes standard output, and tells why not all of it went.
// A call that a signal broke off is made again; any other that fails ends it.
ghost use Rattle.std.specs.Prelude.{◌≤◌, length, IfOk, IfErr};

use std::io;
use std::io::{Error, ErrorKind, Read, Write};

// A proved loop has to end, and a read may be broken off again and again: so many are made at most, far more than there are bytes.
const CALLS: u32 = 1000000;

// Why not all was read, and how many bytes were.
#[derive(Clone, Copy)]
pub struct Short {
    pub count: usize,
    pub why: Error,
}

// Whether the call that failed may be made again.
fn broken_off(why: &Error) -> bool {
    why.kind() == ErrorKind::Interrupted
}

// Reads until the file is full or the input ends, and answers how many bytes.
pub fn read<R: Read>(from: &mut R, file: &mut [u8]) -> Result<usize, Short>
    ensures ok { IfOk result (λ count. count ≤ length file.new) }
    ensures err { IfErr result (λ short. short.count ≤ length file.new) }
{
    let mut count = 0;
    for _ in 0..CALLS {
        if count == file.len() {
            return Ok(count);
        }
        match from.read(&mut file[count..]) {
            Ok(0) => return Ok(count),
            Ok(got) => count += got,
            Err(why) if broken_off(&why) => {}
            Err(why) => return Err(Short { count, why }),
        }
    }
    let why = Error::from(ErrorKind::Interrupted);
    Err(Short { count, why })
}

// Writes all of the text, and answers why not where it did not.
pub fn write<W: Write>(to: &mut W, text: &[u8]) -> io::Result<()> {
    to.write_all(text)
}
