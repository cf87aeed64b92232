// A kept box for the table builder: its middles and half widths as doubles.
ghost use Rattle.std.specs.Prelude.{◌≡◌};
ghost use Rattle.malachirp.specs.Codes.{left};
ghost use Rattle.malachirp.specs.Calls.{middles_call};

use crate::codes::refuse;
use crate::middles::place;

#[unsafe(no_mangle)]
pub extern "C" fn malachirp_middles(
    kept: &[u16; 7],
    middles: &mut [f64; 6],
    offset: &mut u64,
) -> u32
    ensures { middles_call kept.now middles.old ≡ left result offset.new middles.new }
{
    match place(kept) {
        Ok(m) => {
            *middles = m.into();
            *offset = 0;
            0
        }
        Err(x) => refuse(x, offset),
    }
}
