// The system file: reading it into lent places, and writing it into lent bytes.
ghost use Rattle.std.specs.Prelude.{◌≡◌};
ghost use Rattle.malachirp.specs.Codes.{left};
ghost use Rattle.malachirp.specs.Calls.{read_call, write_call};

use crate::codes::refuse;
use file::reading::read;
use system::head::Head;
use writing::write;

#[unsafe(no_mangle)]
pub extern "C" fn malachirp_read(
    file: &[u8],
    coefficients: &mut [i64],
    head: &mut [u8; 8],
    offset: &mut u64,
) -> u32
    ensures { read_call file.now coefficients.old head.old
        ≡ left result offset.new (coefficients.new, head.new) }
{
    match read(file, coefficients) {
        Ok(h) => {
            *head = h.into();
            *offset = 0;
            0
        }
        Err(x) => refuse(x, offset),
    }
}

#[unsafe(no_mangle)]
pub extern "C" fn malachirp_write(
    head: &[u8; 8],
    coefficients: &[i64],
    file: &mut [u8],
    length: &mut u64,
    offset: &mut u64,
) -> u32
    ensures { write_call head.now coefficients.now file.old length.old
        ≡ left result offset.new (file.new, length.new) }
{
    match write(Head::from(*head), coefficients, file) {
        Ok(n) => {
            *length = n as u64;
            *offset = 0;
            0
        }
        Err(x) => refuse(x, offset),
    }
}
