// Which dumps stay: a table with a flag for each number, set along the walks of the wanted dumps.
ghost use Rattle.std.specs.Prelude.{◌≡◌, ◌<◌, length, replicate};
ghost use Rattle.store.specs.Places.{next_at, Noted};
ghost use Rattle.reclaim.specs.Reclaimed.{Needed};
ghost use Rattle.reclaim.specs.Keeping.{Settled, Walks, Passing, Kept};

use chain::{Basis, basis_of};
use store::flags::{flag, is_flagged};
use store::record::{is_wanted, next, number_at};

// Flags this number and those that its walk comes to, up to one that is flagged already: from there on all are.
fn keep_walk(store: &[u8], places: &[usize], number: usize, kept: &mut [u8])
    requires { Noted store.now places.now × (Settled store.now kept.old × (Needed store.now number × (number < 65536))) }
    ensures { Walks store.now kept.old number kept.new }
{
    let mut current = number;
    while !is_flagged(kept, current) {
        flag(kept, current);
        let Basis::Delta(base) = basis_of(store, places, current) else {
            return;
        };
        current = base;
    }
}

// Flags the walk of the dump at a place, if a wanted one begins there.
fn keep_here(store: &[u8], places: &[usize], at: usize, kept: &mut [u8])
    requires { (at < length store.now) × (Noted store.now places.now × Passing store.now at kept.old) }
    ensures { Passing store.now (next_at store.now at) kept.new }
{
    if is_wanted(store[at]) {
        keep_walk(store, places, number_at(store, at + 1), kept);
    }
}

// Flags the walks of all wanted dumps, with no number flagged yet.
// A `while`: the step is a record's length, which its kind says.
pub(crate) fn keep(store: &[u8], places: &[usize], kept: &mut [u8])
    requires { Noted store.now places.now × (kept.old ≡ replicate 8192 0) }
    ensures { Kept store.now kept.new }
{
    let mut at = 0;
    while at < store.len() {
        keep_here(store, places, at, kept);
        at = next(store, at);
    }
}
