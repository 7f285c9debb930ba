// Refusals of packing, splice and setting the payload, and that the words then stay.
use compare::report;
use equality::words::same_words;
use refusal::{Fault, Refusal};
use std::io;

// The first word of an empty start packet.
const START: u32 = 0x5011_0900;

// The same of a continue packet of its message.
const CONTINUE: u32 = 0x5021_0900;

// The same of its end packet.
const END: u32 = 0x5031_0900;

// Packing the first `length` of these words is refused with this refusal and place, and they are still the ones expected.
fn keeps(
    words: &mut [u32],
    length: usize,
    refusal: Refusal,
    place: usize,
    expected: &[u32],
) -> bool {
    splice::sysex8::repack(words, length) == Err(Fault { refusal, place })
        && same_words(words, expected)
}

// The same of three packets with these first words.
fn refused(heads: [u32; 3], length: usize, refusal: Refusal, place: usize) -> bool {
    let [first, second, third] = heads;
    let expected = [first, 0, 0, 0, second, 0, 0, 0, third, 0, 0, 0];
    let mut words = expected;
    keeps(&mut words, length, refusal, place, &expected)
}

// Packing refuses what the check refuses, 2 to 12: a name, the first words, how many words, the refusal and its place.
const PACKINGS: [(&[u8], [u32; 3], usize, Refusal, usize); 11] = [
    (
        b"packing: 2",
        [START, CONTINUE, END],
        13,
        Refusal::Length,
        0,
    ),
    (b"packing: 3", [START, CONTINUE, END], 3, Refusal::Short, 0),
    (
        b"packing: 4",
        [START, CONTINUE, END],
        10,
        Refusal::Ragged,
        0,
    ),
    (
        b"packing: 5",
        [START, 0x4021_0900, END],
        12,
        Refusal::Type,
        4,
    ),
    (
        b"packing: 6",
        [START, CONTINUE, END],
        4,
        Refusal::Complete,
        0,
    ),
    (
        b"packing: 7",
        [CONTINUE, CONTINUE, END],
        12,
        Refusal::Begin,
        0,
    ),
    (b"packing: 8", [START, END, END], 12, Refusal::Continue, 4),
    (
        b"packing: 9",
        [START, CONTINUE, CONTINUE],
        12,
        Refusal::End,
        8,
    ),
    (
        b"packing: 10",
        [START, CONTINUE, 0x503F_0900],
        12,
        Refusal::Count,
        8,
    ),
    (
        b"packing: 11",
        [START, 0x5121_0900, END],
        12,
        Refusal::Group,
        4,
    ),
    (
        b"packing: 12",
        [START, CONTINUE, 0x5031_0800],
        12,
        Refusal::Stream,
        8,
    ),
];

// Packing refuses what the check refuses, 1 to 12. 16,385 words lent: 1.
pub(crate) fn packing(rt: &impl Print) -> io::Result<()> {
    let long = keeps(&mut [9; 16385], 4, Refusal::Long, 0, &[9; 16385]);
    report(rt, b"packing: 1", long)?;
    for (name, heads, length, refusal, place) in &PACKINGS {
        report(rt, name, refused(*heads, *length, *refusal, *place))?;
    }
    Ok(())
}

// P2's two bytes in its four words.
const P2: [u32; 4] = [0x5203_0741, 0x4200_0000, 0, 0];

// Replacing `from..to` of P2's two bytes by 14 bytes is refused so, and the words stay.
fn splice_keeps(from: usize, to: usize, refusal: Refusal) -> bool {
    let mut words = P2;
    splice::sysex8::splice(&mut words, 4, from, to, &[7; 14]) == Err(refusal.into())
        && same_words(&words, &P2)
}

// Setting 14 bytes as P2's payload, in its four words: 14, and the words stay.
fn setting_keeps() -> bool {
    let mut words = P2;
    splice::sysex8::set_payload(&mut words, 4, &[7; 14]) == Err(Refusal::Room.into())
        && same_words(&words, &P2)
}

// After the check a splice refuses 13, then 14; setting the payload 14 alone.
pub(crate) fn splicing(rt: &impl Print) -> io::Result<()> {
    report(
        rt,
        b"splice: 13, reversed, before 14",
        splice_keeps(2, 1, Refusal::Range),
    )?;
    report(
        rt,
        b"splice: 13, past the end, before 14",
        splice_keeps(1, 3, Refusal::Range),
    )?;
    report(rt, b"splice: 14", splice_keeps(1, 2, Refusal::Room))?;
    report(rt, b"setting the payload: 14", setting_keeps())
}
