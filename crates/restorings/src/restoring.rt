// Samples of dumps before collecting and after it. Dump 1 is whole: group 2, stream id 7, data 41 42. Delta 2 is over dump 1, 1..1 by 43;
// delta 3 is over delta 2, 0..1 by nothing. Other dumps have no data and no edits.
use compare::report;
use reclaims::samples::Answer;
use refusal::Refusal;
use std::io;
use stores::answers::{check_gives, check_refuses, refuses, restores};
use stores::samples::{Answer as Read, Given, Sample};

// Dumps that stay: the same words, or the same refusal.
pub(crate) const SAME: [Sample<Answer>; 7] = [
    // 41 43 42; dump 4 is freed.
    (
        b"a wanted dump is restored as before",
        b"\x11\x00\x04\x02\x07\x11\x00\x01\x02\x07\x82\x41\x42\x02\x00\x02\x00\x01\x03\x00\x01\x00\x01\x81\x43",
        &[Answer::Keeps(
            b"\x11\x00\x01\x02\x07\x82\x41\x42\x02\x00\x02\x00\x01\x03\x00\x01\x00\x01\x81\x43",
            Read::Message(2, &[0x5204_0741, 0x4342_0000, 0, 0]),
        )],
    ),
    // 43 42, by way of an unwanted delta; dump 4 is freed.
    (
        b"a chain is restored as before",
        b"\x11\x00\x01\x02\x07\x82\x41\x42\x11\x00\x04\x02\x07\x12\x00\x02\x00\x01\
          \x03\x00\x01\x00\x01\x81\x43\x02\x00\x03\x00\x02\x03\x00\x00\x00\x01",
        &[Answer::Keeps(
            b"\x11\x00\x01\x02\x07\x82\x41\x42\x12\x00\x02\x00\x01\x03\x00\x01\x00\x01\x81\x43\x02\x00\x03\x00\x02\x03\x00\x00\x00\x01",
            Read::Message(3, &[0x5203_0743, 0x4200_0000, 0, 0]),
        )],
    ),
    // 41 42; dump 4 is freed.
    (
        b"an unwanted dump that stays is restored as before",
        b"\x11\x00\x04\x02\x07\x11\x00\x01\x02\x07\x82\x41\x42\x02\x00\x02\x00\x01\x03\x00\x01\x00\x01\x81\x43",
        &[Answer::Keeps(
            b"\x11\x00\x01\x02\x07\x82\x41\x42\x02\x00\x02\x00\x01\x03\x00\x01\x00\x01\x81\x43",
            Read::Message(1, &[0x5203_0741, 0x4200_0000, 0, 0]),
        )],
    ),
    // 2 of 3, 3 of 2; 4 of 3 is asked for.
    (
        b"a ring stays one",
        b"\x12\x00\x02\x00\x03\x11\x00\x01\x02\x07\x82\x41\x42\x02\x00\x04\x00\x03\x12\x00\x03\x00\x02",
        &[Answer::Keeps(
            b"\x12\x00\x02\x00\x03\x02\x00\x04\x00\x03\x12\x00\x03\x00\x02",
            Read::Refused(4, Refusal::Ring),
        )],
    ),
    // The same, and 2, an unwanted one, is asked for.
    (
        b"a ring stays one for an unwanted dump",
        b"\x12\x00\x02\x00\x03\x11\x00\x01\x02\x07\x82\x41\x42\x02\x00\x04\x00\x03\x12\x00\x03\x00\x02",
        &[Answer::Keeps(
            b"\x12\x00\x02\x00\x03\x02\x00\x04\x00\x03\x12\x00\x03\x00\x02",
            Read::Refused(2, Refusal::Ring),
        )],
    ),
    // 3 of 2, 2 of 9.
    (
        b"a walk that ends Missing does so after",
        b"\x12\x00\x02\x00\x09\x11\x00\x01\x02\x07\x82\x41\x42\x02\x00\x03\x00\x02",
        &[Answer::Keeps(
            b"\x12\x00\x02\x00\x09\x02\x00\x03\x00\x02",
            Read::Refused(3, Refusal::Missing),
        )],
    ),
    // 2 of 1, 0..3 of two bytes; delta 3 is freed.
    (
        b"Range stays",
        b"\x12\x00\x03\x00\x01\x11\x00\x01\x02\x07\x82\x41\x42\x02\x00\x02\x00\x01\x03\x00\x00\x00\x03",
        &[Answer::Keeps(
            b"\x11\x00\x01\x02\x07\x82\x41\x42\x02\x00\x02\x00\x01\x03\x00\x00\x00\x03",
            Read::Refused(2, Refusal::Range),
        )],
    ),
];

// Dumps that are freed.
pub(crate) const FREED: [Sample<Answer>; 2] = [
    // 41 43 42 before.
    (
        b"a freed dump is Missing",
        b"\x01\x00\x01\x02\x07\x82\x41\x42\x12\x00\x02\x00\x01\x03\x00\x01\x00\x01\x81\x43",
        &[Answer::Frees(
            b"\x01\x00\x01\x02\x07\x82\x41\x42",
            2,
            &[0x5204_0741, 0x4342_0000, 0, 0],
        )],
    ),
    // 41 42 before; nothing is left.
    (
        b"a freed dump is Missing where nothing is left",
        b"\x11\x00\x01\x02\x07\x82\x41\x42\x12\x00\x02\x00\x01\x03\x00\x01\x00\x01\x81\x43",
        &[Answer::Frees(b"", 1, &[0x5203_0741, 0x4200_0000, 0, 0])],
    ),
];

// Dump 2 is freed and then another.
fn used_again() -> bool {
    check_refuses(
        b"\x01\x00\x01\x02\x07\x82\x41\x42\x12\x00\x02\x00\x01\x03\x00\x01\x00\x01\x81\x43\x01\x00\x02\x02\x07\x81\x44",
        Refusal::Twice,
    ) && Answer::Collects(b"\x01\x00\x01\x02\x07\x82\x41\x42").is_given(
        b"\x01\x00\x01\x02\x07\x82\x41\x42\x12\x00\x02\x00\x01\x03\x00\x01\x00\x01\x81\x43",
    ) && refuses(b"\x01\x00\x01\x02\x07\x82\x41\x42", 2, Refusal::Missing)
        && check_gives(
            b"\x01\x00\x01\x02\x07\x82\x41\x42\x01\x00\x02\x02\x07\x81\x44",
            2,
        )
        && restores(
            b"\x01\x00\x01\x02\x07\x82\x41\x42\x01\x00\x02\x02\x07\x81\x44",
            2,
            &[0x5202_0744, 0, 0, 0],
        )
}

// A number that stays is used already.
fn not_used_again() -> bool {
    Answer::Collects(
        b"\x11\x00\x01\x02\x07\x82\x41\x42\x02\x00\x02\x00\x01\x03\x00\x01\x00\x01\x81\x43",
    ).is_given(
        b"\x11\x00\x01\x02\x07\x82\x41\x42\x11\x00\x04\x02\x07\x02\x00\x02\x00\x01\x03\x00\x01\x00\x01\x81\x43",
    ) && check_refuses(
        b"\x11\x00\x01\x02\x07\x82\x41\x42\x02\x00\x02\x00\x01\x03\x00\x01\x00\x01\x81\x43\x01\x00\x01\x02\x07",
        Refusal::Twice,
    )
}

// 3 of 2, 2 of 9, which comes after collecting.
fn mended() -> bool {
    Answer::Collects(b"\x12\x00\x02\x00\x09\x02\x00\x03\x00\x02").is_given(
        b"\x12\x00\x02\x00\x09\x11\x00\x01\x02\x07\x82\x41\x42\x02\x00\x03\x00\x02",
    ) && refuses(
        b"\x12\x00\x02\x00\x09\x02\x00\x03\x00\x02",
        3,
        Refusal::Missing,
    ) && restores(
        b"\x12\x00\x02\x00\x09\x02\x00\x03\x00\x02\x01\x00\x09\x02\x07\x81\x44",
        3,
        &[0x5202_0744, 0, 0, 0],
    )
}

// 2 of 1; 1 is kept as long as 2 is wanted.
fn in_turn() -> bool {
    Answer::Collects(b"\x11\x00\x01\x02\x07\x82\x41\x42\x02\x00\x02\x00\x01").is_given(
        b"\x11\x00\x01\x02\x07\x82\x41\x42\x02\x00\x02\x00\x01\x11\x00\x04\x02\x07",
    ) && Answer::Collects(b"").is_given(b"\x11\x00\x01\x02\x07\x82\x41\x42\x12\x00\x02\x00\x01")
}

// Writes a line for each sample of what comes after a number is freed, or stays.
pub(crate) fn report_after(rt: &impl Print) -> io::Result<()> {
    report(rt, b"a freed number is used again", used_again())?;
    report(rt, b"a number that stays is Twice", not_used_again())?;
    report(rt, b"a walk that ended Missing is mended", mended())?;
    report(rt, b"a base is freed after its delta", in_turn())
}
