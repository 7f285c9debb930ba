// Samples of too many dumps, and of large ones.
use compare::report;
use equality::words::same_words;
use reclaims::many::{mark_all, stays};
use reclaims::{collect_refuses_in, collects_in, mark_refuses_in};
use refusal::Refusal;
use std::{array, io};
use stores::answers::{check_gives, check_refuses};
use stores::patterns::{chain_unwanted, data, edit_data, wholes, wholes_again};

// 257 dumps; dump 0 is held.
fn mark_full() -> bool {
    let before: [u8; 1285] = array::from_fn(wholes);
    let mut store = before;
    mark_refuses_in(&mut store, 0, &before, Refusal::Full)
}

// 257 dumps; dump 257 is not held.
fn mark_full_and_missing() -> bool {
    let before: [u8; 1285] = array::from_fn(wholes);
    let mut store = before;
    mark_refuses_in(&mut store, 257, &before, Refusal::Full)
}

// 257 dumps, one unwanted.
fn collect_full() -> bool {
    let mut before: [u8; 1285] = array::from_fn(wholes);
    before[0] = 0x11;
    let mut store = before;
    collect_refuses_in(&mut store, &before, Refusal::Full)
}

// 257 dumps, the last with the number of the first, one unwanted.
fn collect_full_and_twice() -> bool {
    let mut before: [u8; 1285] = array::from_fn(wholes_again);
    before[5] = 0x11;
    let mut store = before;
    collect_refuses_in(&mut store, &before, Refusal::Twice)
}

// 257 dumps are Full; 256 of them, of which the last is freed, have room for the 257th.
fn room_again() -> bool {
    let full: [u8; 1285] = array::from_fn(wholes);
    let mut store: [u8; 1280] = array::from_fn(wholes);
    let kept: [u8; 1275] = array::from_fn(wholes);
    store[1275] = 0x11;
    if !check_refuses(&full, Refusal::Full) || !collects_in(&mut store, &kept) {
        return false;
    }
    store[1275] = 0x01;
    store[1276] = 0x01;
    check_gives(&store, 256)
}

// Writes a line for each sample of a 257th dump.
pub(crate) fn report_counts(rt: &impl Print) -> io::Result<()> {
    report(rt, b"marking: Full", mark_full())?;
    report(rt, b"marking: Full before Missing", mark_full_and_missing())?;
    report(rt, b"collecting: Full", collect_full())?;
    report(
        rt,
        b"collecting: Twice before Full",
        collect_full_and_twice(),
    )?;
    report(rt, b"a 257th dump in the place of one", room_again())
}

// Delta 2 of 53,248 bytes goes, and dump 1 without data stays.
fn large_goes() -> bool {
    let mut store: [u8; 57359] = array::from_fn(edit_data);
    mark_all(&mut store, 2..3) && collects_in(&mut store, b"\x01\x00\x01\x00\x00")
}

// The byte at an index of an unwanted dump 0 without data, and a whole dump 1 of full data records.
fn unwanted_and_data(index: usize) -> u8 {
    match index {
        0 => 0x11,
        1..=4 => 0,
        _ => data(index - 5),
    }
}

// Dump 1 of 53,248 bytes moves down by five.
fn large_moves() -> bool {
    let mut store: [u8; 57354] = array::from_fn(unwanted_and_data);
    let kept: [u8; 57349] = array::from_fn(data);
    collects_in(&mut store, &kept)
}

// Delta 255 alone is wanted: the same 84 words before and after.
fn chain_restored() -> bool {
    let mut store: [u8; 3072] = array::from_fn(|index| chain_unwanted(255, index));
    let mut before = [9; 85];
    let mut after = [8; 85];
    restore::restore(&store, 255, &mut before) == Ok(84)
        && stays(&mut store)
        && restore::restore(&store, 255, &mut after) == Ok(84)
        && same_words(&before, &after)
}

// Writes a line for each sample of large dumps, and of a long chain.
pub(crate) fn report_sizes(rt: &impl Print) -> io::Result<()> {
    report(rt, b"53,248 bytes go", large_goes())?;
    report(rt, b"53,248 bytes move down", large_moves())?;
    report(
        rt,
        b"a chain of 256 is restored as before",
        chain_restored(),
    )
}
