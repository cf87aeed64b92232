// The start of a run: the unit box in slot 0, zeros in the other D slots, and nothing beyond.
ghost use Rattle.std.specs.Prelude.{◌≡◌, ◌≤◌, length, MatchResult, Ok, Err};
ghost use Rattle.waiting.specs.States.{needed};
ghost use Rattle.waiting.specs.Starts.{start_check, fresh_state, fresh_store, start_answer, start_store};

use crate::state::State;
use crate::store::long_enough;
use slots::numbers::{clear, in_range};
use slots::starts::Startable;
use system::head::Head;
use system::refusal::{Refusal, Refused};

// 4, 9 for short coefficients, 6, 9 for a short store.
#[tactic(auto, unfolding(crate::specs::Starts::start_check))]
fn startable<'a>(h: Head, coefficients: &'a [i64], store: &[i64]) -> Result<Startable<'a>, Refused>
    ensures { MatchResult result (λ t. (start_check h coefficients.now store.now ≡ Ok tt) × (t.head ≡ h) × (t.coefficients.now ≡ coefficients.now)) (λ e. start_check h coefficients.now store.now ≡ Err e) }
{
    let limited = h.limited()?;
    let places = h.places();
    if coefficients.len() < places {
        return Err(Refusal::TooShort.at_start());
    }
    if !in_range(coefficients, places) {
        return Err(Refusal::BadCoefficient.at_start());
    }
    if !long_enough(limited, store.len()) {
        return Err(Refusal::TooShort.at_start());
    }
    Ok(Startable {
        head: h,
        coefficients,
    })
}

fn fill(system: &Startable, store: &mut [i64])
    requires { needed system.now.head ≤ length store.old }
    ensures { store.new ≡ fresh_store system.now.head system.now.coefficients.now store.old }
{
    let w = system.head.width();
    let stop = w + system.head.depth() * w;
    slots::starts::start(&mut store[0..w], system);
    clear(&mut store[w..stop]);
}

pub fn start(h: Head, coefficients: &[i64], store: &mut [i64]) -> Result<State, Refused>
    ensures { (result ≡ start_answer (start_check h coefficients.now store.old)) × (store.new ≡ start_store h coefficients.now store.old (start_check h coefficients.now store.old)) }
{
    let system = startable(h, coefficients, store)?;
    fill(&system, store);
    Ok(State {
        waiting: 1,
        kept: 0,
        visits: 0,
        dropped: 0,
    })
}
