// One visit, with what became of the box.
ghost use Rattle.std.specs.Prelude.{◌≡◌};
ghost use Rattle.malachirp.specs.Codes.{left};
ghost use Rattle.malachirp.specs.Calls.{visit_call};

use crate::codes::refuse;
use runs::visits::{Answer, visit};
use system::head::Head;
use waiting::state::State;

#[unsafe(no_mangle)]
pub extern "C" fn malachirp_visit(
    head: &[u8; 8],
    store: &mut [i64],
    list: &mut [u16],
    state: &mut [u64; 4],
    seen: &mut [u16; 9],
    word: &mut u32,
    offset: &mut u64,
) -> u32
    ensures { visit_call head.now store.old list.old state.old seen.old word.old
        ≡ left result offset.new (store.new, list.new, state.new, seen.new, word.new) }
{
    match visit(store, list, Head::from(*head), State::from(*state)) {
        Ok(Answer::Saw(s)) => {
            *state = s.state.into();
            *seen = s.visit.into();
            *word = 0;
            *offset = 0;
            0
        }
        Ok(Answer::Stopped(w)) => {
            *word = u8::from(w).into();
            *offset = 0;
            0
        }
        Err(x) => refuse(x, offset),
    }
}
