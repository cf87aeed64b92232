// The start of a run, and how long the places are that a system needs.
ghost use Rattle.std.specs.Prelude.{◌≡◌};
ghost use Rattle.malachirp.specs.Codes.{left};
ghost use Rattle.malachirp.specs.Calls.{sizes_call, start_call};

use crate::codes::refuse;
use system::head::Head;
use waiting::start::start;

// The coefficients' places, m × S, and the waiting store's, (D + 1) × (6 + m × S).
#[unsafe(no_mangle)]
pub extern "C" fn malachirp_sizes(head: &[u8; 8], sizes: &mut [u64; 2], offset: &mut u64) -> u32
    ensures { sizes_call head.now sizes.old ≡ left result offset.new sizes.new }
{
    let h = Head::from(*head);
    match h.check() {
        Ok(()) => {
            let needed = (h.depth() + 1) * h.width();
            *sizes = [h.places() as u64, needed as u64];
            *offset = 0;
            0
        }
        Err(x) => refuse(x, offset),
    }
}

#[unsafe(no_mangle)]
pub extern "C" fn malachirp_start(
    head: &[u8; 8],
    coefficients: &[i64],
    store: &mut [i64],
    state: &mut [u64; 4],
    offset: &mut u64,
) -> u32
    ensures { start_call head.now coefficients.now store.old state.old
        ≡ left result offset.new (store.new, state.new) }
{
    match start(Head::from(*head), coefficients, store) {
        Ok(s) => {
            *state = s.into();
            *offset = 0;
            0
        }
        Err(x) => refuse(x, offset),
    }
}
