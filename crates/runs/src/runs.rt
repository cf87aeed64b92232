// A run as the caller sees it: each step says which record goes where, and here the record is stored.
ghost use Rattle.std.specs.Prelude.{◌≡◌};
ghost use Rattle.runs.specs.Runs.{run_of};

use crate::list::{ListItem, put_kept};
use boxes::visit::Word;
use system::head::Head;
use system::refusal::Refused;
use waiting::cursor::Cursor;
use waiting::state::{State, check};
use waiting::step::step;

#[derive(Clone, Copy, PartialEq, Eq)]
pub struct Stop {
    pub word: Word,
    pub state: State,
}

pub fn run<E: ListItem>(
    store: &mut [i64],
    list: &mut [E],
    h: Head,
    s: State,
    budget: u32,
) -> Result<Stop, Refused>
    ensures { (result ≡ (run_of h s budget (E.records list.old) store.old).answer)
        × ((list.new ≡ E.with_records list.old (run_of h s budget (E.records list.old) store.old).end.list)
        × (store.new ≡ (run_of h s budget (E.records list.old) store.old).end.store)) }
{
    let room = E::room(list);
    check(h, s, store, room)?;
    let mut c = Cursor::new(s, budget, room);
    loop {
        if let Some(word) = c.word {
            return Ok(Stop {
                word,
                state: c.state,
            });
        }
        c = step(store, h, c);
        put_kept(list, c.put);
    }
}
