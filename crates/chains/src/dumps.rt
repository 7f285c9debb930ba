// Samples of dumps that are restored. Dump 1 is whole: group 2, stream id 7, data 41 42. Delta 2 is over dump 1, 1..1 by 43; delta 3 is
// over delta 2, 0..1 by nothing.
use refusal::Refusal;
use stores::samples::{Answer, Sample};

// Samples of a whole dump.
pub(crate) const WHOLE: [Sample<Answer>; 8] = [
    // The empty store has no dump.
    (
        b"the empty store",
        b"",
        &[Answer::Dumps(0), Answer::Refused(0, Refusal::Missing)],
    ),
    // Two bytes in one record; all words past the message zeroed.
    (
        b"a whole dump",
        b"\x01\x00\x01\x02\x07\x82\x41\x42",
        &[Answer::Message(1, &[0x5203_0741, 0x4200_0000, 0, 0])],
    ),
    // A message of no bytes, with the largest group and stream id.
    (
        b"a whole dump without data",
        b"\x01\x00\x01\x0F\xFF",
        &[Answer::Message(1, &[0x5F01_FF00, 0, 0, 0])],
    ),
    // Two bytes in two records.
    (
        b"a whole dump of two data records",
        b"\x01\x00\x01\x02\x07\x81\x41\x81\x42",
        &[Answer::Message(1, &[0x5203_0741, 0x4200_0000, 0, 0])],
    ),
    // Delta 0102 of dump 0201.
    (
        b"numbers highest byte first",
        b"\x01\x02\x01\x02\x07\x82\x41\x42\x02\x01\x02\x02\x01",
        &[Answer::Message(0x0102, &[0x5203_0741, 0x4200_0000, 0, 0])],
    ),
    // 16,384 words lent, all past the message zeroed.
    (
        b"16,384 words lent",
        b"\x01\x00\x01\x02\x07\x82\x41\x42",
        &[Answer::MessageIn(16384, 1, &[0x5203_0741, 0x4200_0000, 0, 0])],
    ),
    // One word more: Long, and the words stay.
    (
        b"16,385 words lent",
        b"\x01\x00\x01\x02\x07\x82\x41\x42",
        &[Answer::RefusedIn(16385, 1, Refusal::Long)],
    ),
    // Long before Format.
    (
        b"16,385 words lent, and Format",
        b"\x04",
        &[Answer::RefusedIn(16385, 1, Refusal::Long)],
    ),
];

// Samples of a delta.
pub(crate) const DELTAS: [Sample<Answer>; 4] = [
    // 41 43 42.
    (
        b"a delta",
        b"\x01\x00\x01\x02\x07\x82\x41\x42\x02\x00\x02\x00\x01\x03\x00\x01\x00\x01\x81\x43",
        &[Answer::Message(2, &[0x5204_0741, 0x4342_0000, 0, 0])],
    ),
    // 43 42.
    (
        b"a delta on a delta",
        b"\x01\x00\x01\x02\x07\x82\x41\x42\x02\x00\x02\x00\x01\x03\x00\x01\x00\x01\x81\x43\x02\x00\x03\x00\x02\x03\x00\x00\x00\x01",
        &[Answer::Message(3, &[0x5203_0743, 0x4200_0000, 0, 0])],
    ),
    // Delta 2 stands before dump 1.
    (
        b"a base behind its delta",
        b"\x02\x00\x02\x00\x01\x03\x00\x01\x00\x01\x81\x43\x01\x00\x01\x02\x07\x82\x41\x42",
        &[Answer::Message(2, &[0x5204_0741, 0x4342_0000, 0, 0])],
    ),
    // The same words as its base.
    (
        b"a delta without edits",
        b"\x01\x00\x01\x02\x07\x82\x41\x42\x02\x00\x02\x00\x01",
        &[Answer::Message(2, &[0x5203_0741, 0x4200_0000, 0, 0])],
    ),
];
