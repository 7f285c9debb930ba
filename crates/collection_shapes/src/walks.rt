// Samples of walks of 256 deltas.
use compare::report;
use reclaims::collects_in;
use reclaims::many::{mark_all, stays};
use refusal::Refusal;
use std::{array, io};
use stores::answers::refuses;
use stores::patterns::{falling, ring};

// 256 deltas, the last of the first; 7 alone is wanted.
fn ring_reached() -> bool {
    let mut store: [u8; 1280] = array::from_fn(ring);
    mark_all(&mut store, 0..7)
        && mark_all(&mut store, 8..256)
        && stays(&mut store)
        && refuses(&store, 7, Refusal::Ring)
}

// All are unwanted.
fn ring_unwanted() -> bool {
    let mut store: [u8; 1280] = array::from_fn(ring);
    mark_all(&mut store, 0..256) && collects_in(&mut store, b"")
}

// 256 deltas numbered from 1, the first of 0, which is not held; 256 alone is wanted.
fn missing_reached() -> bool {
    let mut store: [u8; 1280] = array::from_fn(falling);
    mark_all(&mut store, 1..256) && stays(&mut store) && refuses(&store, 256, Refusal::Missing)
}

// Writes a line for each sample of a long walk.
pub(crate) fn report_walks(rt: &impl Print) -> io::Result<()> {
    report(rt, b"a ring of 256, one wanted", ring_reached())?;
    report(rt, b"a ring of 256, none wanted", ring_unwanted())?;
    report(
        rt,
        b"256 deltas down to a number not held",
        missing_reached(),
    )
}
