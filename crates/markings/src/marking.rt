// Samples of marking. Dump 1 is whole: group 2, stream id 7, data 41 42. Delta 2 is over dump 1, 1..1 by 43.
use reclaims::samples::Answer;
use refusal::Refusal;
use stores::samples::Sample;

// Dumps that are marked.
pub(crate) const MARKED: [Sample<Answer>; 6] = [
    // 01 to 11.
    (
        b"a whole dump is marked",
        b"\x01\x00\x01\x02\x07\x82\x41\x42\x02\x00\x02\x00\x01\x03\x00\x01\x00\x01\x81\x43",
        &[Answer::Marks(
            1,
            b"\x11\x00\x01\x02\x07\x82\x41\x42\x02\x00\x02\x00\x01\x03\x00\x01\x00\x01\x81\x43",
        )],
    ),
    // 02 to 12.
    (
        b"a delta is marked",
        b"\x01\x00\x01\x02\x07\x82\x41\x42\x02\x00\x02\x00\x01\x03\x00\x01\x00\x01\x81\x43",
        &[Answer::Marks(
            2,
            b"\x01\x00\x01\x02\x07\x82\x41\x42\x12\x00\x02\x00\x01\x03\x00\x01\x00\x01\x81\x43",
        )],
    ),
    // 11 stays.
    (
        b"a whole dump is marked again",
        b"\x02\x00\x02\x00\x01\x11\x00\x01\x02\x07\x82\x41\x42",
        &[Answer::Marks(1, b"\x02\x00\x02\x00\x01\x11\x00\x01\x02\x07\x82\x41\x42")],
    ),
    // 12 stays.
    (
        b"a delta is marked again",
        b"\x01\x00\x01\x02\x07\x82\x41\x42\x12\x00\x02\x00\x01",
        &[Answer::Marks(2, b"\x01\x00\x01\x02\x07\x82\x41\x42\x12\x00\x02\x00\x01")],
    ),
    // Beside one that is marked.
    (
        b"both dumps are marked",
        b"\x11\x00\x01\x02\x07\x82\x41\x42\x02\x00\x02\x00\x01",
        &[Answer::Marks(2, b"\x11\x00\x01\x02\x07\x82\x41\x42\x12\x00\x02\x00\x01")],
    ),
    // Delta 2 of 9, which is not held.
    (
        b"a delta of a number not held is marked",
        b"\x02\x00\x02\x00\x09",
        &[Answer::Marks(2, b"\x12\x00\x02\x00\x09")],
    ),
];

// Which record is marked.
pub(crate) const FOUND: [Sample<Answer>; 5] = [
    // 0102 and not 0201.
    (
        b"marking: numbers highest byte first",
        b"\x01\x02\x01\x02\x07\x01\x01\x02\x02\x07",
        &[Answer::Marks(0x0102, b"\x01\x02\x01\x02\x07\x11\x01\x02\x02\x07")],
    ),
    // The largest number of a dump.
    (
        b"marking: number 65,535",
        b"\x01\x00\x01\x02\x07\x01\xFF\xFF\x02\x07",
        &[Answer::Marks(65535, b"\x01\x00\x01\x02\x07\x11\xFF\xFF\x02\x07")],
    ),
    // Dump 1's data is 01 00 02 02 07.
    (
        b"marking: data that looks like a dump",
        b"\x01\x00\x01\x02\x07\x85\x01\x00\x02\x02\x07\x01\x00\x02\x02\x07",
        &[Answer::Marks(
            2,
            b"\x01\x00\x01\x02\x07\x85\x01\x00\x02\x02\x07\x11\x00\x02\x02\x07",
        )],
    ),
    // Delta 3's edit is 2..2.
    (
        b"marking: an edit with that number",
        b"\x02\x00\x03\x00\x01\x03\x00\x02\x00\x02\x02\x00\x02\x00\x01",
        &[Answer::Marks(
            2,
            b"\x02\x00\x03\x00\x01\x03\x00\x02\x00\x02\x12\x00\x02\x00\x01",
        )],
    ),
    // Delta 3 is of 2.
    (
        b"marking: a delta of that number",
        b"\x02\x00\x03\x00\x02\x01\x00\x02\x02\x07",
        &[Answer::Marks(2, b"\x02\x00\x03\x00\x02\x11\x00\x02\x02\x07")],
    ),
];

// Numbers not held.
pub(crate) const MISSING: [Sample<Answer>; 5] = [
    // Dump 1 alone.
    (
        b"marking: a number not held",
        b"\x01\x00\x01\x02\x07\x82\x41\x42",
        &[Answer::NotMarked(2, Refusal::Missing)],
    ),
    // 2 of 1.
    (
        b"marking: a base not held",
        b"\x02\x00\x02\x00\x01",
        &[Answer::NotMarked(1, Refusal::Missing)],
    ),
    // No dump.
    (
        b"marking: the empty store",
        b"",
        &[Answer::NotMarked(0, Refusal::Missing)],
    ),
    // A number of more than two bytes.
    (
        b"marking: number 65,537 is not dump 1",
        b"\x01\x00\x01\x02\x07\x82\x41\x42",
        &[Answer::NotMarked(65537, Refusal::Missing)],
    ),
    // And dump FFFF is held.
    (
        b"marking: the largest number",
        b"\x01\xFF\xFF\x02\x07\x82\x41\x42",
        &[Answer::NotMarked(0xFFFF_FFFF_FFFF_FFFF, Refusal::Missing)],
    ),
];

// Stores that are refused.
pub(crate) const REFUSED: [Sample<Answer>; 6] = [
    // Kind 10, behind the dump.
    (
        b"marking: Format",
        b"\x01\x00\x01\x02\x07\x10\x00\x02\x00\x01",
        &[Answer::NotMarked(1, Refusal::Format)],
    ),
    // Zeros behind the dump.
    (
        b"marking: zeros behind the bytes in use",
        b"\x01\x00\x01\x02\x07\x00\x00\x00\x00\x00",
        &[Answer::NotMarked(1, Refusal::Format)],
    ),
    // Dump 1 twice.
    (
        b"marking: Twice",
        b"\x01\x00\x01\x02\x07\x02\x00\x01\x00\x01",
        &[Answer::NotMarked(1, Refusal::Twice)],
    ),
    // Dump 1 twice, once unwanted.
    (
        b"marking: Twice, wanted and unwanted",
        b"\x11\x00\x01\x02\x07\x02\x00\x01\x00\x01",
        &[Answer::NotMarked(1, Refusal::Twice)],
    ),
    // Dump 1 twice, and a short body behind it; dump 5 is not held.
    (
        b"marking: Format before Twice and Missing",
        b"\x01\x00\x01\x02\x07\x02\x00\x01\x00\x01\x01\x00",
        &[Answer::NotMarked(5, Refusal::Format)],
    ),
    // Dump 1 twice; dump 5 is not held.
    (
        b"marking: Twice before Missing",
        b"\x01\x00\x01\x02\x07\x02\x00\x01\x00\x01",
        &[Answer::NotMarked(5, Refusal::Twice)],
    ),
];
