// Measuring a dump without laying it out: its payload size, the largest on the way, and how many bases are followed.
ghost use Rattle.std.specs.Prelude.{◌≡◌, true, false, ◌<◌, ◌≤◌, length, get_or};
ghost use Rattle.refusal.specs.Answer.{pass};
ghost use Rattle.store.specs.Store.{is_whole, dumps_of, patches_in, sound};
ghost use Rattle.store.specs.Places.{next_at, records_from, Noted, Ordered};
ghost use Rattle.chain.specs.Restore.{outside};
ghost use Rattle.chain.specs.Laying.{DataSized, Becomes, Measures, MeasuresWhole, MeasuresDelta};

use crate::edits::{Reached, skip_data, some_outside};
use refusal::Refusal;
use store::finding::find;
use store::record::{body_here, byte, is_data, is_edit, is_whole, next, number_at};

// What a dump measures: the group and stream id of its whole dump, its payload size, the largest on the way, its own counted, and how many
// bases are followed.
#[derive(Clone, Copy, Debug, PartialEq, Eq)]
pub struct Extent {
    pub group: u8,
    pub id: u8,
    pub size: usize,
    pub largest: usize,
    pub steps: usize,
}

// How many bytes the data has that begins at a place, and where it ends.
// A `while`: the step is a record's length, which its kind says.
pub fn measure_data(store: &[u8], at: usize) -> Reached
    ensures { DataSized store.now at result }
{
    let mut place = at;
    let mut size = 0;
    while is_data(byte(store, place)) {
        size += body_here(store, place);
        place = next(store, place);
    }
    Reached { at: place, size }
}

// The payload size of a base of `size` bytes with all edits of a delta, which begin at a place, put in.
// A `while`: the step is a record's length, which its kind says.
fn measure_edits(store: &[u8], at: usize, size: usize) -> usize
    requires { (size ≤ length store.now) × ((outside size (patches_in (records_from store.now at)) ≡ false)
        × Ordered 0 (patches_in (records_from store.now at))) }
    ensures { Becomes size (patches_in (records_from store.now at)) result }
{
    let mut place = skip_data(store, at);
    let mut end = 0;
    let mut done = 0;
    while is_edit(byte(store, place)) {
        let reached = measure_data(store, next(store, place));
        done += number_at(store, place + 1) - end + reached.size;
        end = number_at(store, place + 3);
        place = reached.at;
    }
    done + (size - end)
}

// Measures the whole dump whose record stands at a place.
fn measure_whole(store: &[u8], at: usize) -> Extent
    requires { (at < length store.now) × (is_whole (get_or store.now at 0) ≡ true) }
    ensures { MeasuresWhole store.now at result }
{
    let reached = measure_data(store, next(store, at));
    Extent {
        group: byte(store, at + 3),
        id: byte(store, at + 4),
        size: reached.size,
        largest: reached.size,
        steps: 0,
    }
}

// Measures the delta whose record stands at a place, from the measure of its base: Range.
fn measure_delta(store: &[u8], at: usize, base: Extent) -> Result<Extent, Refusal>
    requires { (at < length store.now) × ((base.size ≤ length store.now) × ((base.steps < 256)
        × Ordered 0 (patches_in (records_from store.now (next_at store.now at))))) }
    ensures { MeasuresDelta (patches_in (records_from store.now (next_at store.now at))) base result }
{
    let place = next(store, at);
    if some_outside(store, place, base.size) {
        return Err(Refusal::Range);
    }
    let size = measure_edits(store, place, base.size);
    Ok(Extent {
        group: base.group,
        id: base.id,
        size,
        largest: size.max(base.largest),
        steps: base.steps + 1,
    })
}

// Measures the dump of this number, its base first, where the walk may come to `left` numbers more: Ring, Missing, and then Range along the
// walk, the base's before its delta's.
pub fn measure(
    store: &[u8],
    places: &[usize],
    number: usize,
    left: usize,
) -> Result<Extent, Refusal>
    requires { Noted store.now places.now × ((sound store.now ≡ pass) × (left ≤ 257)) }
    ensures { Measures (dumps_of store.now) left number result }
{
    if left == 0 {
        return Err(Refusal::Ring);
    }
    let at = find(store, places, number).ok_or(Refusal::Missing)?;
    if is_whole(byte(store, at)) {
        return Ok(measure_whole(store, at));
    }
    let base = measure(store, places, number_at(store, at + 3), left - 1)?;
    measure_delta(store, at, base)
}
