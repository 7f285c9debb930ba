// Samples of dumps that are not wanted any more: kinds 11 and 12 hex, read as 01 and 02. Dump 1 is whole: group 2, stream id 7, data 41 42.
// Delta 2 is over dump 1, 1..1 by 43.
use chain::{Basis, Description};
use compare::report;
use refusal::Refusal;
use std::{array, io};
use stores::answers::{check_gives, is_unsound};
use stores::patterns::wholes;
use stores::samples::{Answer, Sample};

// Stores that are read.
pub(crate) const READ: [Sample<Answer>; 7] = [
    // 41 42.
    (
        b"an unwanted whole dump",
        b"\x11\x00\x01\x02\x07\x82\x41\x42",
        &[Answer::Message(1, &[0x5203_0741, 0x4200_0000, 0, 0])],
    ),
    // 41 43 42.
    (
        b"an unwanted delta",
        b"\x01\x00\x01\x02\x07\x82\x41\x42\x12\x00\x02\x00\x01\x03\x00\x01\x00\x01\x81\x43",
        &[Answer::Message(2, &[0x5204_0741, 0x4342_0000, 0, 0])],
    ),
    // 41 43 42.
    (
        b"a delta over an unwanted base",
        b"\x11\x00\x01\x02\x07\x82\x41\x42\x02\x00\x02\x00\x01\x03\x00\x01\x00\x01\x81\x43",
        &[Answer::Message(2, &[0x5204_0741, 0x4342_0000, 0, 0])],
    ),
    // Delta 2 stands before dump 1.
    (
        b"an unwanted delta over an unwanted base",
        b"\x12\x00\x02\x00\x01\x03\x00\x01\x00\x01\x81\x43\x11\x00\x01\x02\x07\x82\x41\x42",
        &[Answer::Message(2, &[0x5204_0741, 0x4342_0000, 0, 0])],
    ),
    // Three bytes, one step.
    (
        b"describe: an unwanted delta",
        b"\x11\x00\x01\x02\x07\x82\x41\x42\x12\x00\x02\x00\x01\x03\x00\x01\x00\x01\x81\x43",
        &[Answer::Described(
            2,
            Description {
                basis: Basis::Delta(1),
                group: 2,
                id: 7,
                size: 3,
                words: 4,
                steps: 1,
            },
        )],
    ),
    // 1 of 2, 2 of 1.
    (
        b"a ring of unwanted dumps",
        b"\x12\x00\x01\x00\x02\x12\x00\x02\x00\x01",
        &[Answer::Refused(2, Refusal::Ring)],
    ),
    // 2 of 1.
    (
        b"an unwanted delta of a number not held",
        b"\x12\x00\x02\x00\x01",
        &[Answer::Refused(2, Refusal::Missing)],
    ),
];

// Stores that are refused.
pub(crate) const REFUSED: [Sample<Answer>; 6] = [
    // Dump 1, and dump 1 unwanted.
    (
        b"a number wanted and unwanted",
        b"\x01\x00\x01\x02\x07\x82\x41\x42\x11\x00\x01\x02\x07",
        &[Answer::Unsound(Refusal::Twice)],
    ),
    // Dump 1 and a delta 1, both unwanted.
    (
        b"a number unwanted twice",
        b"\x11\x00\x01\x02\x07\x82\x41\x42\x12\x00\x01\x00\x01",
        &[Answer::Unsound(Refusal::Twice)],
    ),
    // Three bytes of four.
    (
        b"a short unwanted delta",
        b"\x01\x00\x01\x02\x07\x82\x41\x42\x12\x00\x02\x00",
        &[Answer::Unsound(Refusal::Format)],
    ),
    // The group above the largest.
    (
        b"group 16 of an unwanted dump",
        b"\x11\x00\x01\x10\x07\x82\x41\x42",
        &[Answer::Unsound(Refusal::Format)],
    ),
    // Without data between.
    (
        b"an edit behind an unwanted whole dump",
        b"\x11\x00\x01\x02\x07\x03\x00\x00\x00\x00",
        &[Answer::Unsound(Refusal::Format)],
    ),
    // Before any edit.
    (
        b"data behind an unwanted delta",
        b"\x01\x00\x01\x02\x07\x82\x41\x42\x12\x00\x02\x00\x01\x81\x43",
        &[Answer::Unsound(Refusal::Format)],
    ),
];

// The first and the last are unwanted.
fn most_dumps() -> bool {
    let mut store: [u8; 1280] = array::from_fn(wholes);
    store[0] = 0x11;
    store[1275] = 0x11;
    check_gives(&store, 256)
}

// A 257th: Full, though two of them are unwanted.
fn too_many_dumps() -> bool {
    let mut store: [u8; 1285] = array::from_fn(wholes);
    store[0] = 0x11;
    store[1280] = 0x11;
    is_unsound(&store, Refusal::Full)
}

// Writes a line for each sample of many dumps.
pub(crate) fn report_counts(rt: &impl Print) -> io::Result<()> {
    report(rt, b"256 dumps, some unwanted", most_dumps())?;
    report(rt, b"257 dumps, some unwanted", too_many_dumps())
}
