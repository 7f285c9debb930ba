// Samples of walks along bases that come back, or come to a number not held.
use refusal::Refusal;
use stores::samples::{Answer, Sample};

// Samples of a ring.
pub(crate) const RINGS: [Sample<Answer>; 5] = [
    // 1 of 1.
    (
        b"a ring of one",
        b"\x02\x00\x01\x00\x01",
        &[Answer::Refused(1, Refusal::Ring)],
    ),
    // 1 of 2, 2 of 1.
    (
        b"a ring of two",
        b"\x02\x00\x01\x00\x02\x02\x00\x02\x00\x01",
        &[Answer::Refused(2, Refusal::Ring)],
    ),
    // 1 of 2, 2 of 3, 3 of 1.
    (
        b"a ring of three",
        b"\x02\x00\x01\x00\x02\x02\x00\x02\x00\x03\x02\x00\x03\x00\x01",
        &[Answer::Refused(1, Refusal::Ring)],
    ),
    // 1 of 2, 2 of 3, 3 of 2.
    (
        b"a walk into a ring that does not hold its start",
        b"\x02\x00\x01\x00\x02\x02\x00\x02\x00\x03\x02\x00\x03\x00\x02",
        &[Answer::Refused(1, Refusal::Ring)],
    ),
    // 2 of 3 and 3 of 2; 4 of 1, which is whole.
    (
        b"a ring beside the walk",
        b"\x02\x00\x02\x00\x03\x02\x00\x03\x00\x02\x01\x00\x01\x02\x07\x82\x41\x42\x02\x00\x04\x00\x01",
        &[Answer::Message(4, &[0x5203_0741, 0x4200_0000, 0, 0])],
    ),
];

// Samples of a number not held.
pub(crate) const MISSING: [Sample<Answer>; 5] = [
    // The number asked for.
    (
        b"missing at the start",
        b"\x01\x00\x01\x02\x07\x82\x41\x42",
        &[Answer::Refused(2, Refusal::Missing)],
    ),
    // 4 of 3, 3 of 2.
    (
        b"missing in the middle",
        b"\x01\x00\x01\x02\x07\x82\x41\x42\x02\x00\x03\x00\x02\x02\x00\x04\x00\x03",
        &[Answer::Refused(4, Refusal::Missing)],
    ),
    // 3 of 2, and 1 is asked for.
    (
        b"missing off the walk",
        b"\x02\x00\x03\x00\x02\x01\x00\x01\x02\x07\x82\x41\x42",
        &[Answer::Message(1, &[0x5203_0741, 0x4200_0000, 0, 0])],
    ),
    // A number of more than two bytes.
    (
        b"number 65,537 is not dump 1",
        b"\x01\x00\x01\x02\x07\x82\x41\x42",
        &[Answer::Refused(65537, Refusal::Missing)],
    ),
    // And dump FFFF is held.
    (
        b"the largest number",
        b"\x01\xFF\xFF\x02\x07\x82\x41\x42",
        &[Answer::Refused(0xFFFF_FFFF_FFFF_FFFF, Refusal::Missing)],
    ),
];
