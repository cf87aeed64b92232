// The list of kept boxes that the caller lends: as records, or as numbers, seven to a record: s1, k1, s2, k2, s3, k3, mark. Numbers behind the last whole
// record are no part of it, and they are one flat slice, as C lends it.
// A place past the end stores nothing and reads as a record of zeros, so a caller needs no test.
ghost use Rattle.std.specs.Prelude.{◌≡◌, List, length, set, get_or};
ghost use Rattle.waiting.specs.Steps.{nothing_kept, put_in};
ghost use Rattle.waiting.specs.declared.cursor.Kept.{Kept};
ghost use Rattle.runs.specs.Lists.{listed, relisted, Listing};
ghost use Rattle.runs.specs.Listings.{struct_laws, number_laws};

use boxes::half::Box;
use waiting::cursor::Kept;

// What a list of kept boxes is made of.
pub trait ListItem: Sized {
    // The records that stand in a list, and the list after its records were changed.
    ghost records: { List Self → List Kept };

    ghost with_records: { List Self → List Kept → List Self };

    fn room(list: &[Self]) -> usize
        ensures { result ≡ length (records list.now) };

    fn put(list: &mut [Self], to: usize, kept: Kept)
        ensures { list.new ≡ with_records list.old (set (records list.old) to kept) };

    ghost laws: { Listing records with_records };
}

impl ListItem for Kept {
    ghost records = { λ ks. ks };

    ghost with_records = { λ _ ks. ks };

    ghost laws = { struct_laws };

    fn room(list: &[Kept]) -> usize {
        list.len()
    }

    fn put(list: &mut [Kept], to: usize, kept: Kept) {
        if to < list.len() {
            list[to] = kept;
        }
    }
}

impl ListItem for u16 {
    ghost records = { listed };

    ghost with_records = { relisted };

    ghost laws = { number_laws };

    fn room(list: &[u16]) -> usize {
        list.len() / 7
    }

    fn put(list: &mut [u16], to: usize, kept: Kept) {
        if to < list.len() / 7 {
            // as for C and in a slot, and in each of another type, so each names the six numbers
            let at = to * 7;
            list[at] = kept.at.s1.into();
            list[at + 1] = kept.at.k1;
            list[at + 2] = kept.at.s2.into();
            list[at + 3] = kept.at.k2;
            list[at + 4] = kept.at.s3.into();
            list[at + 5] = kept.at.k3;
            list[at + 6] = kept.mark.into();
        }
    }
}

// What a step keeps, if it keeps a box.
pub fn put_kept<E: ListItem>(list: &mut [E], put: Option<(usize, Kept)>)
    ensures { list.new ≡ E.with_records list.old (put_in (E.records list.old) put) }
{
    if let Some((to, kept)) = put {
        E::put(list, to, kept);
    }
}

pub fn peek(list: &[Kept], at: usize) -> Kept
    ensures { result ≡ get_or list.now at nothing_kept }
{
    if at < list.len() {
        return list[at];
    }
    Kept {
        at: Box::unit(),
        mark: 0,
    }
}
