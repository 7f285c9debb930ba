// Moving the records of the dumps that stay down in the store, and zeroing what is freed.
ghost use Rattle.std.specs.Prelude.{◌≡◌, cond, ◌++◌, ◌+◌, ◌-◌, ◌<◌, ◌≤◌, length, get_or, take, drop, replicate};
ghost use Rattle.std.proofs.Math.Seq.{paste};
ghost use Rattle.ump.specs.Word.{pair_at};
ghost use Rattle.store.specs.Store.{is_dump};
ghost use Rattle.store.specs.Places.{flagged, Noted};
ghost use Rattle.reclaim.specs.Reclaim.{collected, lent_after};
ghost use Rattle.reclaim.specs.Keeping.{Kept, PassesDown};

use crate::keeping;
use store::flags::is_flagged;
use store::record::{body_here, is_dump, number_at};

// Whether the record at a place stays: a dump if its number is flagged, another with the dump before it.
fn is_staying(store: &[u8], at: usize, kept: &[u8], on: bool) -> bool
    requires { at < length store.now }
    ensures { result
        ≡ cond (is_dump (get_or store.now at 0)) (flagged kept.now (pair_at store.now (at + 1))) on }
{
    if !is_dump(store[at]) {
        return on;
    }
    is_flagged(kept, number_at(store, at + 1))
}

// Moves a record that stays down behind the `done` bytes, and answers how many they are then.
fn pass_down(store: &mut [u8], at: usize, done: usize, size: usize, on: bool) -> usize
    requires { (done ≤ at) × (at + size ≤ length store.old) }
    ensures { PassesDown on store.old at done size result store.new }
{
    if !on {
        return done;
    }
    store.copy_within(at..at + size, done);
    done + size
}

// Moves the records of all dumps that stay down, in their old order, and answers their length.
// A `while`: the step is a record's length, which its kind says.
fn compact(store: &mut [u8], kept: &[u8]) -> usize
    requires { Kept store.old kept.now }
    ensures { (result ≤ length store.new) × (take result store.new ≡ collected store.old) }
{
    let mut at = 0;
    let mut done = 0;
    let mut on = false;
    while at < store.len() {
        let size = 1 + body_here(store, at);
        on = is_staying(store, at, kept, on);
        done = pass_down(store, at, done, size, on);
        at += size;
    }
    done
}

// Zeroes the store from a place on.
fn clear_from(store: &mut [u8], from: usize)
    requires { from ≤ length store.old }
    ensures { store.new ≡ take from store.old ++ replicate (length store.old - from) 0 }
{
    store[from..].fill(0);
}

// Collects a good store, whose dumps stand at these places, and answers its new length.
pub(crate) fn collect_noted(store: &mut [u8], places: &[usize]) -> usize
    requires { Noted store.old places.now }
    ensures { (result ≡ length (collected store.old)) × (store.new ≡ lent_after store.old) }
{
    let mut kept = [0u8; 8192];
    keeping::keep(store, places, &mut kept);
    let length = compact(store, &kept);
    clear_from(store, length);
    length
}
