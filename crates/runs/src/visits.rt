// One visit as the caller sees it: the step says which record goes where, and here the record is stored.
ghost use Rattle.std.specs.Prelude.{◌≡◌};
ghost use Rattle.runs.specs.Visits.{visit_of};

use crate::list::{ListItem, put_kept};
use boxes::visit::{Visit, Word};
use system::head::Head;
use system::refusal::Refused;
use waiting::cursor::Cursor;
use waiting::state::{State, check};
use waiting::step::step_seen;

// The state after the visit, and what was visited.
#[derive(Clone, Copy, PartialEq, Eq)]
pub struct Seen {
    pub state: State,
    pub visit: Visit,
}

// No Result, as neither case is an error.
#[derive(Clone, Copy, PartialEq, Eq)]
pub enum Answer {
    Saw(Seen),
    Stopped(Word),
}

pub fn visit<E: ListItem>(
    store: &mut [i64],
    list: &mut [E],
    h: Head,
    s: State,
) -> Result<Answer, Refused>
    ensures { (result ≡ (visit_of h s (E.records list.old) store.old).answer)
        × ((list.new ≡ E.with_records list.old (visit_of h s (E.records list.old) store.old).end.list)
        × (store.new ≡ (visit_of h s (E.records list.old) store.old).end.store)) }
{
    let room = E::room(list);
    check(h, s, store, room)?;
    let made = step_seen(store, h, Cursor::new(s, 1, room));
    put_kept(list, made.cursor.put);
    Ok(match made.visit {
        Ok(visit) => Answer::Saw(Seen {
            state: made.cursor.state,
            visit,
        }),
        Err(word) => Answer::Stopped(word),
    })
}
