// Samples of Range and Room along the walk. Dump 1 is whole, in group 2 with stream id 7: 41 42, or 01 to 0D, or 01 to 0E.
use refusal::Refusal;
use stores::samples::{Answer, Sample};

// Samples of a range that is reversed, or past the base, or not.
pub(crate) const RANGES: [Sample<Answer>; 5] = [
    // 2..1.
    (
        b"a reversed edit is Range",
        b"\x01\x00\x01\x02\x07\x82\x41\x42\x02\x00\x02\x00\x01\x03\x00\x02\x00\x01",
        &[Answer::Refused(2, Refusal::Range)],
    ),
    // 1..3 of two bytes.
    (
        b"an edit past its base",
        b"\x01\x00\x01\x02\x07\x82\x41\x42\x02\x00\x02\x00\x01\x03\x00\x01\x00\x03\x81\x43",
        &[Answer::Refused(2, Refusal::Range)],
    ),
    // 2..2 of two bytes.
    (
        b"an edit at the end of its base",
        b"\x01\x00\x01\x02\x07\x82\x41\x42\x02\x00\x02\x00\x01\x03\x00\x02\x00\x02\x81\x43",
        &[Answer::Message(2, &[0x5204_0741, 0x4243_0000, 0, 0])],
    ),
    // 0..0 by two bytes, then 3..3, past the base, though not past what the first edit made of it.
    (
        b"ranges count in the base",
        b"\x01\x00\x01\x02\x07\x82\x41\x42\x02\x00\x02\x00\x01\x03\x00\x00\x00\x00\x82\x43\x44\x03\x00\x03\x00\x03",
        &[Answer::Refused(2, Refusal::Range)],
    ),
    // 1..3 of delta 2, and dump 1 is asked for.
    (
        b"an edit past its base, off the walk",
        b"\x01\x00\x01\x02\x07\x82\x41\x42\x02\x00\x02\x00\x01\x03\x00\x01\x00\x03",
        &[Answer::Message(1, &[0x5203_0741, 0x4200_0000, 0, 0])],
    ),
];

// Samples of too few words, and of the order of Range and Room.
pub(crate) const ROOMS: [Sample<Answer>; 4] = [
    // Three words lent: Room for the shortest message.
    (
        b"three words lent",
        b"\x01\x00\x01\x02\x07",
        &[Answer::RefusedIn(3, 1, Refusal::Room)],
    ),
    // Delta 2 is reversed, and delta 3 of 15 bytes; four words lent.
    (
        b"a base's Range before its delta's Room",
        b"\x01\x00\x01\x02\x07\x82\x41\x42\x02\x00\x02\x00\x01\x03\x00\x02\x00\x01\x02\x00\x03\
          \x00\x02\x03\x00\x00\x00\x00\x8D\x01\x02\x03\x04\x05\x06\x07\x08\x09\x0A\x0B\x0C\x0D",
        &[Answer::RefusedIn(4, 3, Refusal::Range)],
    ),
    // Dump 1 of 14 bytes, and delta 2 is reversed; four words lent.
    (
        b"a base's Room before its delta's Range",
        b"\x01\x00\x01\x02\x07\x8D\x01\x02\x03\x04\x05\x06\x07\x08\x09\x0A\x0B\x0C\x0D\x81\x0E\x02\x00\x02\x00\x01\x03\x00\x02\x00\x01",
        &[Answer::RefusedIn(4, 2, Refusal::Room)],
    ),
    // 0..3 of two bytes, by 14; four words lent.
    (
        b"a delta's Range before its Room",
        b"\x01\x00\x01\x02\x07\x82\x41\x42\x02\x00\x02\x00\x01\x03\x00\x00\x00\
          \x03\x8D\x01\x02\x03\x04\x05\x06\x07\x08\x09\x0A\x0B\x0C\x0D\x81\x0E",
        &[Answer::RefusedIn(4, 2, Refusal::Range)],
    ),
];

// Samples of Room on the way: judged by a dump's own result, and not in the middle of its edits.
pub(crate) const ON_THE_WAY: [Sample<Answer>; 3] = [
    // Dump 1 of 14 bytes, delta 2 of 12; four words lent.
    (
        b"a whole dump on the way needs more words",
        b"\x01\x00\x01\x02\x07\x8D\x01\x02\x03\x04\x05\x06\x07\x08\x09\x0A\x0B\x0C\x0D\x81\x0E\x02\x00\x02\x00\x01\x03\x00\x00\x00\x02",
        &[Answer::RefusedIn(4, 2, Refusal::Room)],
    ),
    // Dump 1 of two bytes, delta 2 of 14, delta 3 of two; four words lent.
    (
        b"a delta on the way needs more words",
        b"\x01\x00\x01\x02\x07\x82\x41\x42\x02\x00\x02\x00\x01\x03\x00\x00\x00\x00\x8C\x01\x02\
          \x03\x04\x05\x06\x07\x08\x09\x0A\x0B\x0C\x02\x00\x03\x00\x02\x03\x00\x00\x00\x0C",
        &[Answer::RefusedIn(4, 3, Refusal::Room)],
    ),
    // 18 bytes after the first edit, and 13 after both.
    (
        b"13 bytes, 5 more, 5 fewer, four words lent",
        b"\x01\x00\x01\x02\x07\x8D\x01\x02\x03\x04\x05\x06\x07\x08\x09\x0A\x0B\x0C\x0D\x02\
          \x00\x02\x00\x01\x03\x00\x00\x00\x00\x85\xA1\xA2\xA3\xA4\xA5\x03\x00\x08\x00\x0D",
        &[Answer::MessageIn(4, 2, &[0x520E_07A1, 0xA2A3_A4A5, 0x0102_0304, 0x0506_0708])],
    ),
];
