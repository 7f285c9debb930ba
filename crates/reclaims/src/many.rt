// Marking and collecting stores of many dumps.
ghost use Rattle.std.specs.Iterator.{IsFinite};

use crate::collects_in;

// Marks the dumps of these numbers, and answers whether each is accepted.
pub fn mark_all<I: Iterator<Item = usize> + Drop>(store: &mut [u8], numbers: I) -> bool
    requires can { I.can_next numbers }
    requires finite { IsFinite (I.remaining numbers) }
{
    for number in numbers {
        if reclaim::mark(store, number).is_err() {
            return false;
        }
    }
    true
}

// Collecting changes nothing.
pub fn stays(store: &mut [u8]) -> bool {
    let mut room = [0; 3072];
    let Some(kept) = room.get_mut(..store.len()) else {
        return false;
    };
    kept.copy_from_slice(store);
    collects_in(store, kept)
}
