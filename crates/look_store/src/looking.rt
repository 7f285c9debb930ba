// Looking for a byte of a dump along its bases: only the records on the walk are read, and nothing is laid out.
ghost use Rattle.std.specs.Prelude.{◌≡◌, ◌≤◌, length, get_or};
ghost use Rattle.store.specs.Store.{data_in, patches_in};
ghost use Rattle.store.specs.Places.{records_from, Ordered};
ghost use Rattle.look_store.specs.Looking.{ComesFrom, Looks, Located};

use chain::edits::skip_data;
use chain::measuring::measure_data;
use store::finding::find;
use store::record::{body_here, byte, is_data, is_edit, is_whole, next, number_at};

// Where a byte of a delta comes from: this byte of its base, or an edit, and then its value.
#[derive(Clone, Copy, Debug, PartialEq, Eq)]
pub(crate) enum Source {
    Base(usize),
    Edit(u8),
}

// Byte `index` of the data that begins at a place; zero past the data.
// A `while`: the step is a record's length, which its kind says.
fn data_byte(store: &[u8], at: usize, index: usize) -> u8
    ensures { result ≡ get_or (data_in (records_from store.now at)) index 0 }
{
    let mut place = at;
    let mut left = index;
    while is_data(byte(store, place)) {
        let size = body_here(store, place);
        if left < size {
            return store[place + 1 + left];
        }
        left -= size;
        place = next(store, place);
    }
    0
}

// Where byte `position` of a delta comes from, whose edits begin at a place. One walk over the edits: `left` is the position behind those
// passed, the last of which ends at `end`.
// A `while`: the step is a record's length, which its kind says.
fn source_of(store: &[u8], at: usize, position: usize) -> Source
    requires { (position ≤ length store.now) × Ordered 0 (patches_in (records_from store.now at)) }
    ensures { ComesFrom (patches_in (records_from store.now at)) position result }
{
    let mut place = skip_data(store, at);
    let mut end = 0;
    let mut left = position;
    while is_edit(byte(store, place)) {
        let gap = number_at(store, place + 1) - end;
        if left < gap {
            return Source::Base(end + left);
        }
        let data = next(store, place);
        let reached = measure_data(store, data);
        let size = reached.size;
        let index = left - gap;
        if index < size {
            return Source::Edit(data_byte(store, data, index));
        }
        left = index - size;
        end = number_at(store, place + 3);
        place = reached.at;
    }
    Source::Base(end + left)
}

// The byte at a position of the dump of this number, where the walk may come to `left` numbers more: a whole dump's, an edit's, or its
// base's.
pub(crate) fn locate(
    store: &[u8],
    places: &[usize],
    number: usize,
    left: usize,
    position: usize,
) -> u8
    requires { Looks store.now places.now number left position }
    ensures { Located store.now number left position result }
{
    if left == 0 {
        return 0;
    }
    let Some(at) = find(store, places, number) else {
        return 0;
    };
    let place = next(store, at);
    if is_whole(byte(store, at)) {
        return data_byte(store, place, position);
    }
    match source_of(store, place, position) {
        Source::Edit(value) => value,
        Source::Base(index) => locate(store, places, number_at(store, at + 3), left - 1, index),
    }
}
