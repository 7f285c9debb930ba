// The edits of a delta, by their records.
ghost use Rattle.std.specs.Prelude.{◌≡◌, ◌||◌, ◌<◌, length};
ghost use Rattle.store.specs.Store.{is_edit, is_data, patches_in};
ghost use Rattle.store.specs.Places.{records_from};
ghost use Rattle.chain.specs.Restore.{outside};
ghost use Rattle.chain.specs.Laying.{bad_edit_at, Past};

use store::record::{byte, is_data, is_edit, next, number_at};

// Where data ends, and how many bytes are laid out or counted with it.
#[derive(Clone, Copy, Debug, PartialEq, Eq)]
pub struct Reached {
    pub at: usize,
    pub size: usize,
}

// The first place at `at` or behind it that is no data.
// A `while`: the step is a record's length, which its kind says.
pub fn skip_data(store: &[u8], at: usize) -> usize
    ensures { Past store.now at result }
{
    let mut place = at;
    while is_data(byte(store, place)) {
        place = next(store, place);
    }
    place
}

// Whether a record of this kind belongs to a delta's edits.
fn is_part(kind: u8) -> bool
    ensures { result ≡ is_edit kind || is_data kind }
{
    is_edit(kind) || is_data(kind)
}

// Whether an edit stands at a place that is reversed or past a payload of `size` bytes.
fn is_bad_edit(store: &[u8], at: usize, size: usize) -> bool
    requires { at < length store.now }
    ensures { result ≡ bad_edit_at store.now at size }
{
    if !is_edit(store[at]) {
        return false;
    }
    let from = number_at(store, at + 1);
    let to = number_at(store, at + 3);
    to < from || size < to
}

// Whether an edit of the delta, whose edits begin at a place, is reversed or past a payload of `size` bytes.
// A `while`: the step is a record's length, which its kind says.
pub fn some_outside(store: &[u8], at: usize, size: usize) -> bool
    ensures { result ≡ outside size (patches_in (records_from store.now at)) }
{
    let mut place = at;
    while is_part(byte(store, place)) {
        if is_bad_edit(store, place, size) {
            return true;
        }
        place = next(store, place);
    }
    false
}
