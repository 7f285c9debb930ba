// Samples of dumps that are described. Dump 1 is whole, in group 2 with stream id 7: 41 42, or 01 to 0E.
use chain::{Basis, Description};
use refusal::Refusal;
use stores::samples::{Answer, Sample};

// Dumps that are described.
pub(crate) const GIVEN: [Sample<Answer>; 4] = [
    // No base, no steps.
    (
        b"describe: a whole dump",
        b"\x01\x00\x01\x02\x07\x82\x41\x42",
        &[Answer::Described(
            1,
            Description {
                basis: Basis::Whole,
                group: 2,
                id: 7,
                size: 2,
                words: 4,
                steps: 0,
            },
        )],
    ),
    // 1..1 by one byte.
    (
        b"describe: a delta",
        b"\x01\x00\x01\x02\x07\x82\x41\x42\x02\x00\x02\x00\x01\x03\x00\x01\x00\x01\x81\x43",
        &[Answer::Described(
            2,
            Description {
                basis: Basis::Delta(1),
                group: 2,
                id: 7,
                size: 3,
                words: 4,
                steps: 1,
            },
        )],
    ),
    // Two steps, and the bases stand behind.
    (
        b"describe: a delta on a delta",
        b"\x02\x00\x03\x00\x02\x02\x00\x02\x00\x01\x03\x00\x01\x00\x01\x81\x43\x01\x00\x01\x02\x07\x82\x41\x42",
        &[Answer::Described(
            3,
            Description {
                basis: Basis::Delta(2),
                group: 2,
                id: 7,
                size: 3,
                words: 4,
                steps: 2,
            },
        )],
    ),
    // A delta of 12 bytes over a base of 14: restored with the eight words of its base, and refused with seven.
    (
        b"describe: a base needs more words",
        b"\x01\x00\x01\x02\x07\x8D\x01\x02\x03\x04\x05\x06\x07\x08\x09\x0A\x0B\x0C\x0D\x81\x0E\x02\x00\x02\x00\x01\x03\x00\x00\x00\x02",
        &[
            Answer::Described(
                2,
                Description {
                    basis: Basis::Delta(1),
                    group: 2,
                    id: 7,
                    size: 12,
                    words: 8,
                    steps: 1,
                },
            ),
            Answer::RefusedIn(7, 2, Refusal::Room),
            Answer::MessageIn(8, 2, &[0x520D_0703, 0x0405_0607, 0x0809_0A0B, 0x0C0D_0E00]),
        ],
    ),
];

// The refusals of describing but Full.
pub(crate) const REFUSED: [Sample<Answer>; 5] = [
    // Kind 04.
    (
        b"describe: Format",
        b"\x04",
        &[Answer::NotDescribed(1, Refusal::Format)],
    ),
    // 1 of 1, twice.
    (
        b"describe: Twice",
        b"\x02\x00\x01\x00\x01\x02\x00\x01\x00\x01",
        &[Answer::NotDescribed(1, Refusal::Twice)],
    ),
    // 1 of 2.
    (
        b"describe: Missing",
        b"\x02\x00\x01\x00\x02",
        &[Answer::NotDescribed(1, Refusal::Missing)],
    ),
    // 1 of 1.
    (
        b"describe: Ring",
        b"\x02\x00\x01\x00\x01",
        &[Answer::NotDescribed(1, Refusal::Ring)],
    ),
    // 0..3 of two bytes.
    (
        b"describe: Range",
        b"\x01\x00\x01\x02\x07\x82\x41\x42\x02\x00\x02\x00\x01\x03\x00\x00\x00\x03",
        &[Answer::NotDescribed(2, Refusal::Range)],
    ),
];
