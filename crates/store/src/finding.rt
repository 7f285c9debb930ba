// Where the dump of a number stands.
ghost use Rattle.std.specs.Prelude.{◌&&◌, ◌≡◌, ◌+◌, eqb, ltb, length};
ghost use Rattle.ump.specs.Word.{pair_at};
ghost use Rattle.store.specs.Meaning.{Finds};

use crate::record::number_at;

// Whether the dump at a place has this number; past the end none stands.
fn is_numbered(store: &[u8], at: usize, number: usize) -> bool
    ensures { result ≡ ltb at (length store.now) && eqb (pair_at store.now (at + 1)) number }
{
    at < store.len() && number_at(store, at + 1) == number
}

// The dump of this number, among those that stand at these places.
pub fn find(store: &[u8], places: &[usize], number: usize) -> Option<usize>
    ensures { Finds store.now places.now number result }
{
    places
        .iter()
        .copied()
        .find(|at| is_numbered(store, *at, number))
}
