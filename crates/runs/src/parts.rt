// Samples of the run of one edit: the numbers that are answered, and the part that is lent.
use edit::Edit;
use look::{Found, Part};
use refusal::Fault;

// Five bytes, and three that replace some of them.
const FIVE: [u8; 5] = [0xA0u8, 0xA1, 0xA2, 0xA3, 0xA4];

const THREE: [u8; 3] = [0xB0u8, 0xB1, 0xB2];

// A run of the payload before the edit, from one place up to another.
fn before(start: usize, end: usize) -> Found {
    Found::Before(Part { start, end })
}

// A run of the replacement.
fn within(start: usize, end: usize) -> Found {
    Found::Within(Part { start, end })
}

// A run of the payload behind the edit.
fn behind(start: usize, end: usize) -> Found {
    Found::Behind(Part { start, end })
}

// What is found at a position of five bytes with an edit.
fn found(from: usize, to: usize, length: usize, position: usize) -> Result<Found, Fault> {
    look::find(5, Edit { from, to, length }, position)
}

// There this run is found, and these bytes are lent.
fn shows(
    from: usize,
    to: usize,
    replacement: &[u8],
    position: usize,
    run: Found,
    bytes: &[u8],
) -> bool {
    found(from, to, replacement.len(), position) == Ok(run)
        && look::run(&FIVE, from, to, replacement, position) == bytes
}

// It is refused as Range.
fn is_range(found: Result<Found, Fault>) -> bool {
    found.is_err_and(|fault| compare::is_fault(fault, 13, 0))
}

// There no run is found, and nothing is lent.
fn refuses(from: usize, to: usize, replacement: &[u8], position: usize) -> bool {
    is_range(found(from, to, replacement.len(), position))
        && look::run(&FIVE, from, to, replacement, position).is_empty()
}

// 1..3 by three bytes: A0 B0 B1 B2 A3 A4, on each side of each border, and past the end.
pub fn borders() -> bool {
    shows(1, 3, &THREE, 0, before(0, 1), &[0xA0])
        && shows(1, 3, &THREE, 1, within(0, 3), &THREE)
        && shows(1, 3, &THREE, 3, within(2, 3), &[0xB2])
        && shows(1, 3, &THREE, 4, behind(3, 5), &[0xA3, 0xA4])
        && shows(1, 3, &THREE, 5, behind(4, 5), &[0xA4])
        && refuses(1, 3, &THREE, 6)
}

// An empty edit ends a run.
pub fn empty() -> bool {
    shows(2, 2, &[], 0, before(0, 2), &[0xA0, 0xA1])
        && shows(2, 2, &[], 1, before(1, 2), &[0xA1])
        && shows(2, 2, &[], 2, behind(2, 5), &[0xA2, 0xA3, 0xA4])
        && refuses(2, 2, &[], 5)
}

// 1..3 by nothing: A0 A3 A4.
pub fn cut() -> bool {
    shows(1, 3, &[], 0, before(0, 1), &[0xA0])
        && shows(1, 3, &[], 1, behind(3, 5), &[0xA3, 0xA4])
        && refuses(1, 3, &[], 3)
}

// Three bytes put in at 0, and the first byte replaced by nothing.
pub fn at_start() -> bool {
    shows(0, 0, &THREE, 0, within(0, 3), &THREE)
        && shows(0, 0, &THREE, 3, behind(0, 5), &FIVE)
        && shows(0, 1, &[], 0, behind(1, 5), &[0xA1, 0xA2, 0xA3, 0xA4])
}

// Three bytes put in at the end, and the last byte replaced by nothing.
pub fn at_end() -> bool {
    shows(5, 5, &THREE, 4, before(4, 5), &[0xA4])
        && shows(5, 5, &THREE, 5, within(0, 3), &THREE)
        && refuses(5, 5, &THREE, 8)
        && refuses(4, 5, &[], 4)
}

// All five replaced, by three bytes and by nothing.
pub fn whole() -> bool {
    shows(0, 5, &THREE, 0, within(0, 3), &THREE)
        && refuses(0, 5, &THREE, 3)
        && refuses(0, 5, &[], 0)
}

// An edit that is reversed, and one past the payload.
pub fn bad_edits() -> bool {
    refuses(3, 1, &THREE, 0) && refuses(1, 6, &THREE, 0) && refuses(6, 6, &[], 0)
}

// What is found at a position of 60,000 bytes with an edit that puts nothing in at a place.
fn found_far(place: usize, position: usize) -> Result<Found, Fault> {
    let edit = Edit {
        from: place,
        to: place,
        length: 0,
    };
    look::find(60000, edit, position)
}

// A replacement of as many bytes as an edit may have, and of one more; so for the end of a range.
pub fn most() -> bool {
    let bytes = [7u8; 53249];
    shows(5, 5, &bytes[..53248], 53252, within(53247, 53248), &[7])
        && refuses(0, 0, &bytes, 0)
        && found_far(53248, 53248) == Ok(behind(53248, 60000))
        && is_range(found_far(53249, 0))
}

// The largest numbers, of 64 bits: as a position, a size, and within an edit.
pub fn largest() -> bool {
    let edit = Edit {
        from: 0,
        to: 1,
        length: 0,
    };
    refuses(1, 3, &THREE, usize::MAX)
        && refuses(usize::MAX, usize::MAX, &THREE, 0)
        && look::find(usize::MAX, edit, usize::MAX - 2) == Ok(behind(usize::MAX - 1, usize::MAX))
        && is_range(look::find(usize::MAX, edit, usize::MAX - 1))
}
