// Restoring in two scratch payloads: a dump's base is laid out in one, then the dump in the other.
ghost use Rattle.std.specs.Prelude.{◌≡◌, true, false, ◌++◌, ◌+◌, ◌*◌, ◌<◌, ◌≤◌, length, get_or, take, drop};
ghost use Rattle.std.proofs.Math.Seq.{paste, slice};
ghost use Rattle.refusal.specs.Answer.{gives};
ghost use Rattle.ump.specs.Word.{pair_at};
ghost use Rattle.ump.specs.Edits.{replaced};
ghost use Rattle.store.specs.Store.{is_whole, data_in, patches_in, dumps_of};
ghost use Rattle.store.specs.Places.{next_at, records_from, Noted};
ghost use Rattle.chain.specs.Restore.{exceeds, outside, roomed, rebuilt, restored};
ghost use Rattle.chain.specs.Laying.{whole_at};
ghost use Rattle.restore.specs.Laying.{Ran, Filling, Lays, base_in};

use chain::edits::{Reached, skip_data, some_outside};
use refusal::Refusal;
use splice::sysex8::words_needed;
use store::finding::find;
use store::record::{body_here, byte, is_data, is_edit, is_whole, next, number_at};

// A payload laid out: whose group and stream id, and how many bytes of the scratch.
#[derive(Clone, Copy, Debug, PartialEq, Eq)]
pub(crate) struct Held {
    pub group: u8,
    pub id: u8,
    pub size: usize,
}

// Copies `count` bytes from `start` on to the place `done`.
fn copy(to: &mut [u8], done: usize, from: &[u8], start: usize, count: usize)
    requires { (done + count ≤ length to.old) × (start + count ≤ length from.now) }
    ensures { to.new ≡ paste to.old done (drop start from.now) count }
{
    // Byte by byte: the slices' own copy calls `memmove`, and of the C library the calls need `memset` alone (README).
    for index in 0..count {
        to[done + index] = from[start + index];
    }
}

// Lays out the data that begins at a place, behind `done` bytes.
// A `while`: the step is a record's length, which its kind says.
fn copy_data(store: &[u8], at: usize, to: &mut [u8], done: usize) -> Option<Reached>
    requires { done ≤ length to.old }
    ensures { Ran store.now at (take done to.old ++ data_in (records_from store.now at))
        to.old result to.new }
{
    let mut place = at;
    let mut size = done;
    while is_data(byte(store, place)) {
        let count = body_here(store, place);
        if to.len() - size < count {
            return None;
        }
        copy(to, size, store, place + 1, count);
        size += count;
        place = next(store, place);
    }
    Some(Reached { at: place, size })
}

// Lays out the bytes from `end` up to `from` of a base, behind `done` bytes.
fn copy_part(base: &[u8], end: usize, from: usize, to: &mut [u8], done: usize) -> Option<usize>
    requires { (from ≤ length base.now) × (done ≤ length to.old) }
    ensures { Filling (take done to.old ++ slice end from base.now) to.old result to.new }
{
    if from <= end {
        return Some(done);
    }
    let count = from - end;
    if to.len() - done < count {
        return None;
    }
    copy(to, done, base, end, count);
    Some(done + count)
}

// Lays out what a base has from `end` up to the edit at a place, and the edit's data, behind `done` bytes.
fn copy_edit(
    store: &[u8],
    at: usize,
    base: &[u8],
    end: usize,
    to: &mut [u8],
    done: usize,
) -> Option<Reached>
    requires { (at < length store.now) × ((pair_at store.now (at + 1) ≤ length base.now) × (done ≤ length to.old)) }
    ensures { Ran store.now (next_at store.now at)
        ((take done to.old ++ slice end (pair_at store.now (at + 1)) base.now)
        ++ data_in (records_from store.now (next_at store.now at)))
        to.old result to.new }
{
    let size = copy_part(base, end, number_at(store, at + 1), to, done)?;
    copy_data(store, next(store, at), to, size)
}

// Lays out a base's `size` bytes with all edits of a delta, which begin at a place, put in.
// A `while`: the step is a record's length, which its kind says.
fn copy_edits(store: &[u8], at: usize, base: &[u8], size: usize, to: &mut [u8]) -> Option<usize>
    requires { (size ≤ length base.now) × (outside size (patches_in (records_from store.now at)) ≡ false) }
    ensures { Filling (replaced (take size base.now) (patches_in (records_from store.now at)))
        to.old result to.new }
{
    let mut place = skip_data(store, at);
    let mut end = 0;
    let mut done = 0;
    while is_edit(byte(store, place)) {
        let reached = copy_edit(store, place, base, end, to, done)?;
        end = number_at(store, place + 3);
        done = reached.size;
        place = reached.at;
    }
    copy_part(base, end, size, to, done)
}

// Lays out the whole dump whose record stands at a place: Room.
fn lay_whole(store: &[u8], at: usize, lent: usize, to: &mut [u8]) -> Result<Held, Refusal>
    requires { (at < length store.now) × ((is_whole (get_or store.now at 0) ≡ true) × (13 * lent ≤ 4 * length to.old)) }
    ensures { Lays (roomed (exceeds lent) (whole_at store.now at)) result to.new }
{
    let reached = copy_data(store, next(store, at), to, 0).ok_or(Refusal::Room)?;
    if lent < words_needed(reached.size) {
        return Err(Refusal::Room);
    }
    Ok(Held {
        group: byte(store, at + 3),
        id: byte(store, at + 4),
        size: reached.size,
    })
}

// Lays out the delta whose record stands at a place, from its base in another scratch: Range, Room.
fn lay_delta(
    store: &[u8],
    at: usize,
    lent: usize,
    held: Held,
    base: &[u8],
    to: &mut [u8],
) -> Result<Held, Refusal>
    requires { (at < length store.now) × ((held.size ≤ length base.now) × (13 * lent ≤ 4 * length to.old)) }
    ensures { Lays (rebuilt (exceeds lent) (patches_in (records_from store.now (next_at store.now at)))
        (gives (base_in held base.now))) result to.new }
{
    let place = next(store, at);
    if some_outside(store, place, held.size) {
        return Err(Refusal::Range);
    }
    let size = copy_edits(store, place, base, held.size, to).ok_or(Refusal::Room)?;
    if lent < words_needed(size) {
        return Err(Refusal::Room);
    }
    Ok(Held {
        group: held.group,
        id: held.id,
        size,
    })
}

// Lays out the dump of this number, its base first, where the walk may come to `left` numbers more: Ring, Missing, and the refusals of
// the base and of its deltas in turn. Base and delta change places between the two scratches.
pub(crate) fn lay(
    store: &[u8],
    places: &[usize],
    number: usize,
    left: usize,
    lent: usize,
    to: &mut [u8],
    spare: &mut [u8],
) -> Result<Held, Refusal>
    requires { Noted store.now places.now × ((13 * lent ≤ 4 * length to.old) × (13 * lent ≤ 4 * length spare.old)) }
    ensures { Lays (restored (exceeds lent) (dumps_of store.now) left number) result to.new }
{
    if left == 0 {
        return Err(Refusal::Ring);
    }
    let at = find(store, places, number).ok_or(Refusal::Missing)?;
    if is_whole(byte(store, at)) {
        return lay_whole(store, at, lent, to);
    }
    let base = number_at(store, at + 3);
    let held = lay(store, places, base, left - 1, lent, spare, to)?;
    lay_delta(store, at, lent, held, spare, to)
}
