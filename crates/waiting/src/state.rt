// The state of a run, and its check against the head, the waiting store and the list.
ghost use Rattle.std.specs.Prelude.{◌≡◌, leb};
ghost use Rattle.waiting.specs.States.{counts_ok, judged_by, state_from, state_numbers};

use crate::store::{long_enough, slots_ok};
use system::head::Head;
use system::refusal::{Refusal, Refused};

// The four counts.
#[derive(Clone, Copy, PartialEq, Eq)]
pub struct State {
    pub waiting: usize,
    pub kept: usize,
    pub visits: u64,
    pub dropped: u64,
}

// For C.
impl From<[u64; 4]> for State {
    ghost from_gives = { λ n s. s ≡ state_from n };

    fn from(numbers: [u64; 4]) -> Self {
        let [waiting, kept, visits, dropped] = numbers;
        State {
            waiting: waiting as usize,
            kept: kept as usize,
            visits,
            dropped,
        }
    }
}

impl From<State> for [u64; 4] {
    ghost from_gives = { λ s n. n ≡ state_numbers s };

    fn from(s: State) -> [u64; 4] {
        [s.waiting as u64, s.kept as u64, s.visits, s.dropped]
    }
}

#[tactic(auto, unfolding(crate::specs::States::counts_ok))]
fn counts_ok(h: Head, s: State) -> bool
    ensures { result ≡ counts_ok h s }
{
    s.waiting <= h.depth() + 1 && s.dropped <= s.visits && s.visits <= 2147483647
}

// 4, 9, 10, in this order; of the list, whatever its records, that it has room for those kept.
#[tactic(auto, unfolding(crate::specs::States::judged_by))]
pub fn check(h: Head, s: State, store: &[i64], room: usize) -> Result<(), Refused>
    ensures { result ≡ judged_by h s store.now (leb s.kept room) }
{
    let limited = h.limited()?;
    if !long_enough(limited, store.len()) {
        return Err(Refusal::TooShort.at_start());
    }
    if counts_ok(h, s) && slots_ok(store, limited, s.waiting) && s.kept <= room {
        Ok(())
    } else {
        Err(Refusal::OutsideRules.at_start())
    }
}
