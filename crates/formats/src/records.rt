// Samples of Format, and of what is none. Each store but those of the start begins with dump 1: group 2, stream id 7, data 41 42.
use refusal::Refusal;
use stores::samples::{Answer, Sample};

// Kinds that there are not.
pub(crate) const KINDS: [Sample<Answer>; 7] = [
    // With four bytes behind it.
    (
        b"kind 00",
        b"\x01\x00\x01\x02\x07\x82\x41\x42\x00\x00\x02\x00\x00",
        &[Answer::Unsound(Refusal::Format)],
    ),
    // With four bytes behind it.
    (
        b"kind 04",
        b"\x01\x00\x01\x02\x07\x82\x41\x42\x04\x00\x02\x00\x00",
        &[Answer::Unsound(Refusal::Format)],
    ),
    // A whole dump but for its kind.
    (
        b"kind 10",
        b"\x01\x00\x01\x02\x07\x82\x41\x42\x10\x00\x02\x00\x00",
        &[Answer::Unsound(Refusal::Format)],
    ),
    // An edit of a delta but for its kind.
    (
        b"kind 13",
        b"\x01\x00\x01\x02\x07\x82\x41\x42\x02\x00\x02\x00\x01\x13\x00\x01\x00\x01",
        &[Answer::Unsound(Refusal::Format)],
    ),
    // Data of no bytes.
    (
        b"kind 80",
        b"\x01\x00\x01\x02\x07\x82\x41\x42\x80",
        &[Answer::Unsound(Refusal::Format)],
    ),
    // Data of 14 bytes.
    (
        b"kind 8E",
        b"\x01\x00\x01\x02\x07\x82\x41\x42\x8E\x01\x02\x03\x04\x05\x06\x07\x08\x09\x0A\x0B\x0C\x0D\x0E",
        &[Answer::Unsound(Refusal::Format)],
    ),
    // With four bytes behind it.
    (
        b"kind FF",
        b"\x01\x00\x01\x02\x07\x82\x41\x42\xFF\x00\x02\x00\x01",
        &[Answer::Unsound(Refusal::Format)],
    ),
];

// Kinds whose body ends with the store.
pub(crate) const BODIES: [Sample<Answer>; 5] = [
    // Three bytes of four.
    (
        b"a short whole dump",
        b"\x01\x00\x01\x02\x07\x82\x41\x42\x01\x00\x02\x00",
        &[Answer::Unsound(Refusal::Format)],
    ),
    // Three bytes of four.
    (
        b"a short delta",
        b"\x01\x00\x01\x02\x07\x82\x41\x42\x02\x00\x02\x00",
        &[Answer::Unsound(Refusal::Format)],
    ),
    // Three bytes of four.
    (
        b"a short edit",
        b"\x01\x00\x01\x02\x07\x82\x41\x42\x02\x00\x02\x00\x01\x03\x00\x00\x00",
        &[Answer::Unsound(Refusal::Format)],
    ),
    // None of one.
    (
        b"a short data record of one byte",
        b"\x01\x00\x01\x02\x07\x82\x41\x42\x81",
        &[Answer::Unsound(Refusal::Format)],
    ),
    // 12 of 13.
    (
        b"a short data record of 13 bytes",
        b"\x01\x00\x01\x02\x07\x82\x41\x42\x8D\x01\x02\x03\x04\x05\x06\x07\x08\x09\x0A\x0B\x0C",
        &[Answer::Unsound(Refusal::Format)],
    ),
];

// Records that stand where they may not, and a group above 15.
pub(crate) const PLACES: [Sample<Answer>; 6] = [
    // Before any edit.
    (
        b"data behind a delta",
        b"\x01\x00\x01\x02\x07\x82\x41\x42\x02\x00\x02\x00\x01\x81\x43",
        &[Answer::Unsound(Refusal::Format)],
    ),
    // Without data between.
    (
        b"an edit behind a whole dump",
        b"\x01\x00\x01\x02\x07\x03\x00\x00\x00\x00",
        &[Answer::Unsound(Refusal::Format)],
    ),
    // The data is a whole dump's.
    (
        b"an edit behind a whole dump's data",
        b"\x01\x00\x01\x02\x07\x82\x41\x42\x03\x00\x00\x00\x00",
        &[Answer::Unsound(Refusal::Format)],
    ),
    // Behind nothing.
    (
        b"an edit at the start",
        b"\x03\x00\x00\x00\x00",
        &[Answer::Unsound(Refusal::Format)],
    ),
    // Behind nothing.
    (
        b"data at the start",
        b"\x81\x43",
        &[Answer::Unsound(Refusal::Format)],
    ),
    // The group above the largest.
    (
        b"group 16",
        b"\x01\x00\x01\x10\x07\x82\x41\x42",
        &[Answer::Unsound(Refusal::Format)],
    ),
];

// Edits in order or not, and a number used again.
pub(crate) const ORDER: [Sample<Answer>; 6] = [
    // 0..2, then 1..2.
    (
        b"an edit before the end of the one before",
        b"\x01\x00\x01\x02\x07\x82\x41\x42\x02\x00\x02\x00\x01\x03\x00\x00\x00\x02\x81\x43\x03\x00\x01\x00\x02",
        &[Answer::Unsound(Refusal::Format)],
    ),
    // 0..1 and 1..2 are no Format.
    (
        b"edits that touch",
        b"\x01\x00\x01\x02\x07\x82\x41\x42\x02\x00\x02\x00\x01\x03\x00\x00\x00\x01\x81\x43\x03\x00\x01\x00\x02\x81\x44",
        &[Answer::Message(2, &[0x5203_0743, 0x4400_0000, 0, 0])],
    ),
    // 2..1.
    (
        b"a reversed edit is no Format",
        b"\x01\x00\x01\x02\x07\x82\x41\x42\x02\x00\x02\x00\x01\x03\x00\x02\x00\x01",
        &[Answer::Dumps(2)],
    ),
    // 0..2 of delta 2, then 1..1 of delta 3: no Format.
    (
        b"edits of two deltas",
        b"\x01\x00\x01\x02\x07\x82\x41\x42\x02\x00\x02\x00\x01\x03\x00\x00\x00\x02\x02\x00\x03\x00\x01\x03\x00\x01\x00\x01",
        &[Answer::Dumps(3)],
    ),
    // A whole dump and a delta.
    (
        b"a number twice",
        b"\x01\x00\x01\x02\x07\x82\x41\x42\x02\x00\x01\x00\x01",
        &[Answer::Unsound(Refusal::Twice)],
    ),
    // Format is judged over the whole store first.
    (
        b"a number twice, and Format behind it",
        b"\x01\x00\x01\x02\x07\x82\x41\x42\x02\x00\x01\x00\x01\x04",
        &[Answer::Unsound(Refusal::Format)],
    ),
];
