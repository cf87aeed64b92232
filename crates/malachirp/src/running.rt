// A run, in pieces as the caller likes.
ghost use Rattle.std.specs.Prelude.{◌≡◌};
ghost use Rattle.malachirp.specs.Codes.{left};
ghost use Rattle.malachirp.specs.Calls.{run_call};

use crate::codes::refuse;
use runs::runs::run;
use system::head::Head;
use waiting::state::State;

#[unsafe(no_mangle)]
pub extern "C" fn malachirp_run(
    head: &[u8; 8],
    budget: u32,
    store: &mut [i64],
    list: &mut [u16],
    state: &mut [u64; 4],
    word: &mut u32,
    offset: &mut u64,
) -> u32
    ensures { run_call head.now budget store.old list.old state.old word.old
        ≡ left result offset.new (store.new, list.new, state.new, word.new) }
{
    match run(store, list, Head::from(*head), State::from(*state), budget) {
        Ok(stop) => {
            *state = stop.state.into();
            *word = u8::from(stop.word).into();
            *offset = 0;
            0
        }
        Err(x) => refuse(x, offset),
    }
}
