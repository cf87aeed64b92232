// One visit, and one step of a run, on the store and a cursor by value.
ghost use Rattle.std.specs.Prelude.{◌≡◌};
ghost use Rattle.waiting.specs.Cells.{boxed};
ghost use Rattle.waiting.specs.Steps.{for_room, due, moved, next, seen, Ready, MayVisit};

use crate::cursor::{Cursor, Kept};
use crate::store::{box_at, cut_at, give_up, look_at};
use boxes::visit::{Outcome, Visit, Word};
use system::head::Head;

// A cursor after one step, and the visit that it made, or the word that it stopped with.
#[derive(Clone, Copy)]
pub struct Made {
    pub cursor: Cursor,
    pub visit: Result<Visit, Word>,
}

fn for_room(what: Outcome, kept: usize, room: usize) -> Result<Outcome, Word>
    ensures { result ≡ for_room kept room what }
{
    match what {
        Outcome::Kept(_) if room <= kept => Err(Word::Full),
        _ => Ok(what),
    }
}

fn before_visit(store: &[i64], h: Head, c: Cursor) -> Result<Outcome, Word>
    requires { Ready h store.now c }
    ensures { result ≡ due (boxed h) store.now c }
{
    let s = c.state;
    if s.waiting == 0 {
        return Err(Word::Finished);
    }
    if c.left == 0 {
        return Err(Word::Spent);
    }
    for_room(look_at(store, h, s.waiting - 1), s.kept, c.room)
}

// The top box becomes what the rules say.
fn make(store: &mut [i64], h: Head, c: Cursor, what: Outcome) -> Cursor
    requires { MayVisit h store.old c what }
    ensures { (result ≡ (moved (boxed h) store.old c what).cursor) × (store.new ≡ (moved (boxed h) store.old c what).store) }
{
    let mut s = c.state;
    let p = s.waiting - 1;
    s.visits += 1;
    match what {
        Outcome::Dropped(_, _) => {
            give_up(store, h, p);
            s.waiting = p;
            s.dropped += 1;
            c.go_on(s, None)
        }
        Outcome::Kept(mark) => {
            let at = box_at(store, h, p);
            give_up(store, h, p);
            let place = s.kept;
            s.waiting = p;
            s.kept += 1;
            c.go_on(s, Some((place, Kept { at, mark })))
        }
        Outcome::Cut(r) => {
            cut_at(store, h, p, r);
            s.waiting += 1;
            c.go_on(s, None)
        }
    }
}

// One step of a run: a stop, or a visit.
pub fn step(store: &mut [i64], h: Head, c: Cursor) -> Cursor
    requires { Ready h store.old c }
    ensures { (result ≡ (next (boxed h) store.old c).cursor) × (store.new ≡ (next (boxed h) store.old c).store) }
{
    match before_visit(store, h, c) {
        Ok(what) => make(store, h, c, what),
        Err(word) => c.halt(word),
    }
}

// The same step, with the visit that it made.
pub fn step_seen(store: &mut [i64], h: Head, c: Cursor) -> Made
    requires { Ready h store.old c }
    ensures { (result.cursor ≡ (next (boxed h) store.old c).cursor) × (result.visit ≡ seen (boxed h) store.old c (due (boxed h) store.old c)) × (store.new ≡ (next (boxed h) store.old c).store) }
{
    match before_visit(store, h, c) {
        Ok(what) => {
            let at = box_at(store, h, c.state.waiting - 1);
            Made {
                cursor: make(store, h, c, what),
                visit: Ok(Visit { at, what }),
            }
        }
        Err(word) => Made {
            cursor: c.halt(word),
            visit: Err(word),
        },
    }
}
