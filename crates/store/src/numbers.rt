// The dumps of the store: how many there are, whether two have one number, and where each stands.
ghost use Rattle.std.specs.Prelude.{◌≡◌, ◌<◌, length, set, replicate};
ghost use Rattle.store.specs.Places.{Entering};
ghost use Rattle.store.specs.Meaning.{Enters, Passed};

use crate::flags::{flag, is_flagged};
use crate::record::{is_dump, next, number_at};

// Stores a place at an index, where there is one.
// By index: after a slice's `get_mut` a proof knows its length, and none of its elements.
fn put(places: &mut [usize], index: usize, place: usize)
    ensures { places.new ≡ set places.old index place }
{
    if index < places.len() {
        places[index] = place;
    }
}

// Passes the record at a place: if a dump begins there, its number is flagged as used and its place noted.
fn enter_here(
    store: &[u8],
    at: usize,
    count: usize,
    used: &mut [u8],
    places: &mut [usize],
) -> Option<usize>
    requires { (at < length store.now) × Entering store.now at count used.old places.old }
    ensures { Enters store.now at result used.new places.new }
{
    if !is_dump(store[at]) {
        return Some(count);
    }
    let number = number_at(store, at + 1);
    if is_flagged(used, number) {
        return None;
    }
    flag(used, number);
    put(places, count, at);
    Some(count + 1)
}

// Passes all records, with no number used yet.
// A `while`: the step is a record's length, which its kind says.
pub(crate) fn enter(store: &[u8], used: &mut [u8], places: &mut [usize]) -> Option<usize>
    requires { used.old ≡ replicate 8192 0 }
    ensures { Passed store.now result places.new }
{
    let mut count = 0;
    let mut at = 0;
    while at < store.len() {
        count = enter_here(store, at, count, used, places)?;
        at = next(store, at);
    }
    Some(count)
}
