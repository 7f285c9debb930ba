// Marking a dump unwanted: one byte of the store.
ghost use Rattle.std.specs.Prelude.{◌≡◌, ◌&&◌, ◌+◌, ◌<◌, eqb, length, get_or};
ghost use Rattle.ump.specs.Word.{pair_at};
ghost use Rattle.ump.specs.Edits.{elem};
ghost use Rattle.store.specs.Store.{is_dump, dumps_of, numbers_of};
ghost use Rattle.reclaim.specs.Reclaim.{marked_kind, marked};

use store::record::{is_dump, is_wanted, next, number_at};

// The kind of a dump that is marked.
fn marked_kind(kind: u8) -> u8
    ensures { result ≡ marked_kind kind }
{
    if is_wanted(kind) {
        return kind + 0x10;
    }
    kind
}

// Whether the dump of this number begins at a place.
fn begins_here(store: &[u8], at: usize, number: usize) -> bool
    requires { at < length store.now }
    ensures { result ≡ is_dump (get_or store.now at 0) && eqb (pair_at store.now (at + 1)) number }
{
    is_dump(store[at]) && number_at(store, at + 1) == number
}

// Marks the dump of this number, and answers whether there is one.
// A `while`: the step is a record's length, which its kind says.
pub(crate) fn mark_dump(store: &mut [u8], number: usize) -> bool
    ensures { (result ≡ elem number (numbers_of (dumps_of store.old)))
        × (store.new ≡ marked store.old number) }
{
    let mut at = 0;
    while at < store.len() {
        if begins_here(store, at, number) {
            store[at] = marked_kind(store[at]);
            return true;
        }
        at = next(store, at);
    }
    false
}
