// Samples of dumps before marking and after it. Dump 1 is whole: group 2, stream id 7, data 41 42. Delta 2 is over dump 1, 1..1 by 43.
use chain::{Basis, Description};
use compare::report;
use reclaims::samples::Answer;
use std::io;
use stores::answers::{check_gives, describes, restores};
use stores::samples::Given;

// Dump 1 is marked, and both dumps are restored as before.
fn restored() -> bool {
    let before =
        b"\x01\x00\x01\x02\x07\x82\x41\x42\x02\x00\x02\x00\x01\x03\x00\x01\x00\x01\x81\x43";
    let after = b"\x11\x00\x01\x02\x07\x82\x41\x42\x02\x00\x02\x00\x01\x03\x00\x01\x00\x01\x81\x43";
    Answer::Marks(1, after).is_given(before)
        && restores(after, 1, &[0x5203_0741, 0x4200_0000, 0, 0])
        && restores(before, 2, &[0x5204_0741, 0x4342_0000, 0, 0])
        && restores(after, 2, &[0x5204_0741, 0x4342_0000, 0, 0])
}

// What delta 2 says, whether it is marked or not.
const TWO: Description = Description {
    basis: Basis::Delta(1),
    group: 2,
    id: 7,
    size: 2,
    words: 4,
    steps: 1,
};

// Delta 2 is marked, and is checked and described as before.
fn described() -> bool {
    let before = b"\x01\x00\x01\x02\x07\x82\x41\x42\x02\x00\x02\x00\x01";
    let after = b"\x01\x00\x01\x02\x07\x82\x41\x42\x12\x00\x02\x00\x01";
    Answer::Marks(2, after).is_given(before)
        && check_gives(after, 2)
        && describes(before, 2, TWO)
        && describes(after, 2, TWO)
}

// Writes a line for each sample of how a marked dump is read.
pub(crate) fn report_read(rt: &impl Print) -> io::Result<()> {
    report(rt, b"a marked dump is restored as before", restored())?;
    report(rt, b"a marked dump is described as before", described())
}
